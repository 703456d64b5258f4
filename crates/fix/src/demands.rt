// Firm demand: what the consumers declared, and each one's share of DMP (2.6.5.1).
ghost use Rattle.std.specs.Prelude.{◌≡◌, ◌^◌, ◌<◌, IfOk};
ghost use Rattle.basis.specs.Sums.{sum};
ghost use Rattle.quantities.specs.Refusals.{met};
ghost use Rattle.share.specs.Division.{shares};
ghost use Rattle.fix.specs.Fix.{declared_by, weights_of, with_demand, with_demands, fix_rest};

use crate::division::among_consumers;
use quantities::{CONSUMERS, Refusal};
use state::{Consumer, Declaration, Figures};
use std::array;

// What a consumer declared, 0 if it did not.
pub fn declared(declaration: Declaration) -> u32
    ensures { result ≡ declared_by declaration }
{
    declaration.figures().map_or(0, |figures| figures.d)
}

// What each consumer declared, the weights of firm demand. By places: a map of the array would take a copy of all consumers.
pub fn weights(consumers: &[Consumer; CONSUMERS]) -> [u64; CONSUMERS]
    ensures each { result ≡ weights_of consumers.now }
    ensures fits { sum result < 2 ^ 64 }
{
    array::from_fn(|i| u64::from(declared(consumers[i].declaration)))
}

// The division of DMP by D.
pub(crate) fn demands(
    dmp: u32,
    consumers: &[Consumer; CONSUMERS],
) -> Result<[u32; CONSUMERS], Refusal>
    ensures number { met result ≡ fix_rest dmp consumers.now }
    ensures shared { IfOk result (λ demands. demands ≡ shares dmp (weights_of consumers.now)) }
{
    // A share of DMP is at most DMP, which fits 32 bits. By places, since that is known of the amount at each place.
    let amounts = among_consumers(dmp.into(), &weights(consumers))?;
    Ok(array::from_fn(|i| amounts[i] as u32))
}

// A consumer with its firm demand, if declared.
// A match over the enum: each case has a consumer of its own.
fn with_demand(df: u32, x: Consumer) -> Consumer
    ensures { result ≡ with_demand df x }
{
    match x.declaration {
        Declaration::Undeclared => x,
        Declaration::Declared(figures) => Consumer {
            declaration: Declaration::Declared(Figures { df, ..figures }),
            ..x
        },
    }
}

// The consumers with their firm demands.
pub(crate) fn with_demands(
    demands: &[u32; CONSUMERS],
    consumers: &[Consumer; CONSUMERS],
) -> [Consumer; CONSUMERS]
    ensures { result ≡ with_demands demands.now consumers.now }
{
    array::from_fn(|i| with_demand(demands[i], consumers[i]))
}
