// Dreal and DFA, the real and the adjusted demand of each consumer, and numbers 16 and 14.
ghost use Rattle.std.specs.Prelude.{◌≡◌, ℕ, ◌≤◌, get_or, None};
ghost use Rattle.basis.specs.Sums.{sum, all_at_most};
ghost use Rattle.quantities.specs.Limits.{greatest_power};
ghost use Rattle.fix.specs.Fix.{weights_of};
ghost use Rattle.close.specs.Close.{real_demand, reals_of, adjusted_by, all_adjusted, all_heard};

use fix::weights;
use quantities::{CONSUMERS, GREATEST_POWER};
use state::{Consumer, Declaration};
use std::array;

// What all consumers declared.
pub fn total_declared(consumers: &[Consumer; CONSUMERS]) -> u64
    ensures { result ≡ sum (weights_of consumers.now) }
{
    weights(consumers).iter().sum()
}

// Real demand of a consumer, if there is any: the mean where one stands, else the reading. The undeclared are asked for none: 0.
// A match over the enum: each case has a value of its own.
pub fn real_demand(x: Consumer) -> Option<u32>
    ensures { result ≡ real_demand x }
{
    match x.declaration {
        Declaration::Undeclared => Some(0),
        Declaration::Declared(_) => x.mean.or(x.reading),
    }
}

// Real demand of each consumer.
pub fn real_demands(consumers: &[Consumer; CONSUMERS]) -> [Option<u32>; CONSUMERS]
    ensures { result ≡ reals_of consumers.now }
{
    array::from_fn(|i| real_demand(consumers[i]))
}

// Whether each declared consumer has a reading or a mean.
#[tactic(auto, unfolding(crate::specs::Close::all_heard))]
pub(crate) fn is_heard(reals: &[Option<u32>]) -> bool
    ensures { result ≡ all_heard reals.now }
{
    reals.iter().all(Option::is_some)
}

// DFA by Dreal; 0 stands where there is none.
// DMP and ΣD apart, here and below: DMP stands in the book, and a run keeps ΣD beside it.
fn adjusted_by(dmp: u32, total: u64, real: Option<u32>) -> u64
    ensures { result ≡ adjusted_by dmp total real }
{
    let Some(real) = real else {
        return 0;
    };
    let product = u64::from(real) * u64::from(dmp);
    product.checked_div(total).unwrap_or(0)
}

// Whether no DFA is above the greatest; the first that is decides.
pub(crate) fn is_within(dmp: u32, total: u64, reals: &[Option<u32>]) -> bool
    ensures { result ≡ all_at_most greatest_power (all_adjusted dmp total reals.now) }
{
    reals.iter().all(|real| adjusted_by(dmp, total, *real) <= u64::from(GREATEST_POWER))
}

// DFA of each consumer, once none is above the greatest: by places, since that is known, and asked for here, at each place.
pub(crate) fn adjusted(dmp: u32, total: u64, reals: &[Option<u32>; CONSUMERS]) -> [u32; CONSUMERS]
    requires { (k : ℕ) → adjusted_by dmp total (get_or reals.now k None) ≤ greatest_power }
    ensures { result ≡ all_adjusted dmp total reals.now }
{
    array::from_fn(|i| adjusted_by(dmp, total, reals[i]) as u32)
}
