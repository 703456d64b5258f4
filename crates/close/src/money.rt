// Positive adjustments, charges and credits.
ghost use Rattle.std.specs.Prelude.{◌≡◌, ℕ, ◌-◌, ◌≤◌, ◌<◌, ◌^◌, get_or};
ghost use Rattle.basis.specs.Sums.{sum};
ghost use Rattle.basis.specs.Tables.{tab};
ghost use Rattle.quantities.specs.Limits.{greatest_power, greatest_price, consumers as consumer_count};
ghost use Rattle.quantities.specs.Refusals.{met};
ghost use Rattle.state.specs.State.{fresh_consumer};
ghost use Rattle.close.specs.Close.{surplus_by, charge_by, charges_of, charged_rest, credits_of, undistributed_of};

use fix::among_consumers;
use quantities::{CONSUMERS, GREATEST_TOTAL, Refusal};
use state::{Consumer, Declaration, Figures};
use std::array;

// ADF of a consumer where it is positive, else 0.
fn surplus(dfa: u32, declaration: Declaration) -> u32
    ensures { result ≡ surplus_by dfa declaration }
{
    declaration
        .figures()
        .map_or(0, |figures| figures.df.saturating_sub(dfa))
}

// The positive ADF of each consumer, the weights of the credits.
pub(crate) fn surpluses(
    adjusted: &[u32; CONSUMERS],
    consumers: &[Consumer; CONSUMERS],
) -> [u64; CONSUMERS]
    ensures { result ≡ tab (λ i. surplus_by (get_or adjusted.now i 0) (get_or consumers.now i fresh_consumer).declaration) consumer_count }
{
    array::from_fn(|i| u64::from(surplus(adjusted[i], consumers[i].declaration)))
}

// The charge of a consumer in cents: for ADF below 0 of who declared less than 98 % of the projection.
// A match with a guard: all others are charged nothing.
fn charge(p: u32, dfa: u32, declaration: Declaration) -> u64
    requires { dfa ≤ greatest_power }
    ensures { result ≡ charge_by p dfa declaration }
{
    match declaration {
        Declaration::Declared(Figures { d, a, df }) if 100 * u64::from(d) < 98 * u64::from(a) => {
            u64::from(dfa.saturating_sub(df)) * u64::from(p) * 12
        }
        _ => 0,
    }
}

// The charge of each consumer: so many, each in its range, that their sum has 64 bits. No type of a price in its range: three functions ask for
// that; the bound of the DFA stands in this function's terms, place by place, here and below.
pub(crate) fn charges(
    p: u32,
    adjusted: &[u32; CONSUMERS],
    consumers: &[Consumer; CONSUMERS],
) -> [u64; CONSUMERS]
    requires price { p ≤ greatest_price }
    requires within { (k : ℕ) → get_or adjusted.now k 0 ≤ greatest_power }
    ensures each { result ≡ charges_of p adjusted.now consumers.now }
    ensures fits { sum result < 2 ^ 64 }
{
    array::from_fn(|i| charge(p, adjusted[i], consumers[i].declaration))
}

// 19: the charges are more than a division takes.
pub(crate) fn check_charges(
    p: u32,
    adjusted: &[u32; CONSUMERS],
    consumers: &[Consumer; CONSUMERS],
) -> Result<(), Refusal>
    requires price { p ≤ greatest_price }
    requires within { (k : ℕ) → get_or adjusted.now k 0 ≤ greatest_power }
    ensures { met result ≡ charged_rest (charges_of p adjusted.now consumers.now) }
{
    let charged: u64 = charges(p, adjusted, consumers).iter().sum();
    if charged <= GREATEST_TOTAL {
        Ok(())
    } else {
        Err(Refusal::AboveGreatestTotal)
    }
}

// The charges divided by the positive ADF; with none, all is undistributed.
pub(crate) fn credits(charged: u64, surpluses: &[u64; CONSUMERS]) -> [u64; CONSUMERS]
    ensures each { result ≡ credits_of charged surpluses.now }
    ensures covered { sum result ≤ charged }
    ensures rest { charged - sum result ≡ undistributed_of charged surpluses.now }
{
    among_consumers(charged, surpluses).unwrap_or([0; CONSUMERS])
}
