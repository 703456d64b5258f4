// What a listing or a screen asks of a book. A number out of its range has the answer of one that is not there.
#![tactic(auto)]

ghost use Rattle.std.specs.Prelude.{◌≡◌};
ghost use Rattle.state.specs.State.{stage_number};
ghost use Rattle.questions.specs.Questions.{has_unit, signed_of};
ghost use Rattle.questions.specs.Questions.{unit_offers_of, producer_totals_of, declaration_of, adjustment_of, close_totals_of};
ghost use Rattle.questions.specs.Values.{unit_values, producer_values, declaration_values, adjustment_values};
ghost use Rattle.questions.specs.Values.{unit_figures, producer_figures, declaration_figures, adjustment_figures};

use decision::producer_balance;
use quantities::{CONSUMERS, PRODUCERS, UNITS};
use state::{Book, Declaration, Stage, Unit, place_among};

// A unit's firm and efficient offer, kW, 0 before the fix.
#[derive(Clone, Copy, Debug, PartialEq, Eq)]
pub struct Offers {
    pub firm: u32,
    pub efficient: u32,
}

// What a producer may commit, 0 before the fix, and the sum of its balances, kW.
#[derive(Clone, Copy, Debug, PartialEq, Eq)]
pub struct Totals {
    pub limit: u32,
    pub committed: u64,
}

// A number with its sign. No i64: the definitions count in naturals, and its clause would have the same two cases.
#[derive(Clone, Copy, Debug, PartialEq, Eq)]
pub enum Signed {
    Plus(u64),
    Minus(u64),
}

// A consumer's ADF in kW, its charge and its credit in cents.
#[derive(Clone, Copy, Debug, PartialEq, Eq)]
pub struct Adjustment {
    pub adf: Signed,
    pub charge: u64,
    pub credit: u64,
}

// The sums of charges and of credits, and what is distributed to nobody, cents: the totals of the close without its arrays.
#[derive(Clone, Copy, Debug, PartialEq, Eq)]
pub struct CloseTotals {
    pub charged: u64,
    pub credited: u64,
    pub undistributed: u64,
}

// The stage of a book.
pub fn stage_of(book: &Book) -> Stage
    ensures { (result ≡ book.now.stage) × (stage_number result ≡ stage_number book.now.stage) }
{
    book.stage
}

// The firm and the efficient offer of a unit, if it is enrolled.
pub fn unit_offers(book: &Book, unit: u32) -> Option<Offers>
    ensures { (result ≡ unit_offers_of book.now unit) × (unit_values result ≡ unit_figures book.now unit) }
{
    let place = place_among(UNITS, unit)?;
    book.units[place].enrolment?;
    Some(Offers {
        firm: book.offers[place],
        efficient: book.efficient[place],
    })
}

// One of the units is enrolled by the producer. Not that of `letters`, where a unit that is not enrolled counts as producer 0's.
fn has_unit(producer: u32, units: &[Unit; UNITS]) -> bool
    ensures { result ≡ has_unit producer units.now }
{
    units.iter().any(|unit| unit
        .enrolment
        .is_some_and(|entry| entry.producer == producer))
}

// What a producer with a unit may commit, and what it has committed.
pub fn producer_totals(book: &Book, producer: u32) -> Option<Totals>
    ensures { (result ≡ producer_totals_of book.now producer) × (producer_values result ≡ producer_figures book.now producer) }
{
    let place = place_among(PRODUCERS, producer)?;
    has_unit(producer, &book.units).then_some(Totals {
        limit: book.limits[place],
        committed: producer_balance(&book.balances, producer),
    })
}

// What a consumer declared, and its firm demand.
pub fn declaration_of(book: &Book, consumer: u32) -> Declaration
    ensures { (result ≡ declaration_of book.now consumer) × (declaration_values result ≡ declaration_figures book.now consumer) }
{
    place_among(CONSUMERS, consumer).map_or(
        Declaration::Undeclared,
        |place| book.consumers[place].declaration,
    )
}

// The difference of two figures.
fn signed_of(a: u32, b: u32) -> Signed
    ensures { result ≡ signed_of a b }
{
    if b <= a {
        Signed::Plus((a - b).into())
    } else {
        Signed::Minus((b - a).into())
    }
}

// The adjustment, charge and credit of a declared consumer after the close.
pub fn adjustment_of(book: &Book, consumer: u32) -> Option<Adjustment>
    ensures { (result ≡ adjustment_of book.now consumer) × (adjustment_values result ≡ adjustment_figures book.now consumer) }
{
    if book.stage != Stage::Closed {
        return None;
    }
    let place = place_among(CONSUMERS, consumer)?;
    let figures = book.consumers[place].declaration.figures()?;
    Some(Adjustment {
        adf: signed_of(figures.df, book.closing.adjusted[place]),
        charge: book.closing.charges[place],
        credit: book.closing.credits[place],
    })
}

// The three totals of the close.
#[tactic(auto, unfolding(crate::specs::Questions::close_totals_of))]
pub fn close_totals(book: &Book) -> CloseTotals
    ensures { result ≡ close_totals_of book.now }
{
    CloseTotals {
        charged: book.closing.charged,
        credited: book.closing.credited,
        undistributed: book.closing.undistributed,
    }
}
