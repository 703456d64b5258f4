// The lines of consumers.
ghost use Rattle.std.specs.Prelude.{◌≡◌, ◌++◌, ◌+◌, ◌≤◌, length};
ghost use Rattle.letters.specs.Letters.{demand_line, demand_lines, settlement_line, settlement_lines};

use crate::room::{LONGEST, LONGEST_BY_CONSUMER};
use quantities::CONSUMERS;
use state::{CloseFigures, Consumer, Declaration};
use text::{Amount, LONGEST_LINE, Text, line};

// The line D of a consumer, none where it is not declared.
// A match: each case has a text of its own.
#[tactic(auto, unfolding(crate::specs::Letters::demand_line))]
fn demand_line(number: usize, declaration: Declaration) -> Text<LONGEST_LINE>
    ensures { result ≡ demand_line number declaration }
{
    match declaration {
        Declaration::Undeclared => Text::new(),
        Declaration::Declared(figures) => line(
            b'D',
            &[number.into(), u64::from(figures.df).into()],
        ),
    }
}

// The lines D of all consumers, behind what a listing has so far, here and below.
#[tactic(auto, unfolding(crate::specs::Letters::demand_lines))]
pub fn push_demand_lines(consumers: &[Consumer; CONSUMERS], listing: &mut Text<LONGEST>)
    requires { length listing.old + LONGEST_BY_CONSUMER ≤ LONGEST }
    ensures text { listing.new ≡ listing.old ++ demand_lines consumers.now }
    ensures room { length listing.new ≤ length listing.old + LONGEST_BY_CONSUMER }
{
    listing.push_join(CONSUMERS, |i| demand_line(i + 1, consumers[i].declaration));
}

// The line S of a consumer, none where it is not declared; its figures come one by one, as the book keeps each in an array of its own.
// This line and that of a page share only these two amounts: a struct of the four figures would be taken apart at once.
#[tactic(auto, unfolding(crate::specs::Letters::settlement_line))]
fn settlement_line(
    number: usize,
    declaration: Declaration,
    adjusted: u32,
    charge: u64,
    credit: u64,
) -> Text<LONGEST_LINE>
    ensures { result ≡ settlement_line number declaration adjusted charge credit }
{
    let Declaration::Declared(figures) = declaration else {
        return Text::new();
    };
    let adjustment = Amount {
        plus: figures.df.into(),
        minus: adjusted.into(),
    };
    let cents = Amount {
        plus: credit,
        minus: charge,
    };
    line(b'S', &[number.into(), adjustment, cents])
}

// The lines S of all consumers.
#[tactic(auto, unfolding(crate::specs::Letters::settlement_lines))]
pub fn push_settlement_lines(
    consumers: &[Consumer; CONSUMERS],
    closing: &CloseFigures,
    listing: &mut Text<LONGEST>,
)
    requires { length listing.old + LONGEST_BY_CONSUMER ≤ LONGEST }
    ensures text { listing.new ≡ listing.old ++ settlement_lines consumers.now closing.now.adjusted closing.now.charges closing.now.credits }
    ensures room { length listing.new ≤ length listing.old + LONGEST_BY_CONSUMER }
{
    listing.push_join(CONSUMERS, |i| {
        settlement_line(
            i + 1,
            consumers[i].declaration,
            closing.adjusted[i],
            closing.charges[i],
            closing.credits[i],
        )
    });
}
