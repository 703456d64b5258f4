// A division among all consumers.
ghost use Rattle.std.specs.Prelude.{◌≡◌, ℕ, ◌≤◌, IfOk, get_or};
ghost use Rattle.basis.specs.Sums.{sum};
ghost use Rattle.quantities.specs.Limits.{consumers};
ghost use Rattle.quantities.specs.Refusals.{met};
ghost use Rattle.share.specs.Division.{division_number, shares};

use quantities::{CONSUMERS, Refusal};

// The total divided by one weight for each consumer: amounts that add up to it.
pub fn among_consumers(total: u64, weights: &[u64; CONSUMERS]) -> Result<[u64; CONSUMERS], Refusal>
    ensures number { met result ≡ division_number total weights.now consumers }
    ensures amounts { IfOk result (λ amounts. amounts ≡ shares total weights.now) }
    ensures whole { IfOk result (λ amounts. sum amounts ≡ total) }
    ensures each { IfOk result (λ amounts. (k : ℕ) → get_or amounts k 0 ≤ total) }
{
    let mut amounts = [0; CONSUMERS];
    share::divide(total, weights, &mut amounts)?;
    Ok(amounts)
}
