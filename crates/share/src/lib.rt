// Level Share: a total divided among participants in whole units (document 01, "Division by shares").
#![tactic(auto)]

mod buffers;
mod parts;
mod promises;

ghost use Rattle.std.specs.Prelude.{◌≡◌, length};
ghost use Rattle.quantities.specs.Refusals.{met};
ghost use Rattle.share.specs.Division.{Divides, division_number};

pub use buffers::share_divide;
pub use promises::shares_divide;
use quantities::{GREATEST_TOTAL, MOST_WEIGHTS, Refusal};

// What a division into `room` amounts meets: 3, 13, 15 or nothing.
#[tactic(auto, using(crate::proofs::Accepted::sum_fits), unfolding(crate::specs::Division::division_number))]
pub fn check_division(total: u64, weights: &[u64], room: usize) -> Result<(), Refusal>
    ensures { met result ≡ division_number total weights.now room }
{
    if GREATEST_TOTAL < total || weights.is_empty() || MOST_WEIGHTS < weights.len() {
        return Err(Refusal::OutOfRange);
    }
    if !parts::in_range(weights) {
        return Err(Refusal::OutOfRange);
    }
    if parts::sum_of(weights) == 0 {
        return Err(Refusal::NoWeight);
    }
    if room < weights.len() {
        return Err(Refusal::ShortBuffer);
    }
    Ok(())
}

// Divides the total by the weights into the front of the amounts. The rest is an array of the most weights, since the library has no heap.
pub fn divide(total: u64, weights: &[u64], amounts: &mut [u64]) -> Result<(), Refusal>
    ensures { Divides total weights.now amounts.old (met result) amounts.new }
{
    check_division(total, weights, amounts.len())?;
    let n = weights.len();
    let mut rest = [0u32; MOST_WEIGHTS];
    parts::share_out(total, weights, &mut amounts[..n], &mut rest[..n]);
    Ok(())
}
