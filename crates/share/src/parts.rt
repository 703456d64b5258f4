// The steps of a division: the weights' range and sum, the whole parts, and the units left over.
ghost use Rattle.std.specs.Prelude.{◌≡◌, true, ◌+◌, ◌-◌, ◌≤◌, ◌<◌, ◌^◌, length};
ghost use Rattle.basis.specs.Sums.{sum, all_at_most};
ghost use Rattle.quantities.specs.Limits.{greatest_total, greatest_weight};
ghost use Rattle.share.specs.Division.{whole_parts, remainders, largest, give, shares, division_number};

use quantities::GREATEST_WEIGHT;

// Whether each weight is in its range.
pub(crate) fn in_range(weights: &[u64]) -> bool
    ensures { result ≡ all_at_most greatest_weight weights.now }
{
    weights.iter().all(|weight| *weight <= GREATEST_WEIGHT)
}

// The sum of weights that are in range.
pub(crate) fn sum_of(weights: &[u64]) -> u64
    requires { sum weights.now < 2 ^ 64 }
    ensures { result ≡ sum weights.now }
{
    weights.iter().sum()
}

// The whole parts into the amounts, what they leave of each product into the rest; answers the units left over. Two slices, no slice
// of pairs: the amounts are the caller's, the rest is room to work in of fixed size, of 32 bits, which the sum of the weights does not exceed: the
// largest of such is found in half the time. No type of the weights that a division takes: two functions ask for them.
#[tactic(auto, using(crate::proofs::Accepted::product_fits, crate::proofs::Quotients::turn), unfolding(crate::specs::Division::whole_parts, crate::specs::Division::remainders))]
pub(crate) fn whole_parts(
    total: u64,
    whole: u64,
    weights: &[u64],
    amounts: &mut [u64],
    rest: &mut [u32],
) -> u64
    requires total_le_greatest_total { (total ≤ greatest_total) × (all_at_most greatest_weight weights.now ≡ true) }
    requires whole_nonzero { (0 < whole) × (whole ≡ sum weights.now) }
    requires whole_small { whole < 2 ^ 32 }
    requires amounts_len { (length amounts.old ≡ length weights.now) × (length rest.old ≡ length weights.now) }
    ensures value { result ≡ total - sum (whole_parts total whole weights.now) }
    ensures amounts_after { amounts.new ≡ whole_parts total whole weights.now }
    ensures rest_after { rest.new ≡ remainders total whole weights.now }
{
    // Over `zip` and iter_mut it was not proved: the loop's invariant then has no amounts and no rest to speak of.
    let mut left = total;
    for (i, weight) in weights.iter().enumerate() {
        let product = total * *weight;
        let part = product / whole;
        amounts[i] = part;
        rest[i] = (product % whole) as u32;
        left -= part;
    }
    left
}

// The place of the largest, the lowest of several.
pub(crate) fn largest_of(rest: &[u32]) -> usize
    requires { 0 < length rest.now }
    ensures { (result ≡ largest rest.now) × (result < length rest.now) }
{
    let most = rest.iter().copied().max().unwrap_or(0);
    rest.iter()
        .position(|left| *left == most)
        .unwrap_or(rest.len())
}

// Gives the units left over singly to the largest of the rest, which is then struck. Two slices, as above.
#[tactic(auto, using(crate::proofs::Units::giving), unfolding(crate::specs::Division::give))]
pub(crate) fn give_left(left: u64, amounts: &mut [u64], rest: &mut [u32])
    requires amounts_len { (length amounts.old ≡ length rest.old) × (0 < length rest.old) }
    requires left_bound { sum amounts.old + left ≤ greatest_total }
    ensures { amounts.new ≡ give left amounts.old rest.old }
{
    for _unit in 0..left {
        let place = largest_of(rest);
        amounts[place] += 1;
        rest[place] = 0;
    }
}

// The amounts of an accepted division, one for each weight. Two slices, no slice of pairs: the amounts are the caller's, the rest is
// room to work in of fixed size. No type of the weights that a division takes: two functions ask for them.
pub(crate) fn share_out(total: u64, weights: &[u64], amounts: &mut [u64], rest: &mut [u32])
    requires amounts_value { division_number total weights.now (length amounts.old) ≡ 0 }
    requires amounts_len { (length amounts.old ≡ length weights.now) × (length rest.old ≡ length weights.now) }
    ensures { amounts.new ≡ shares total weights.now }
{
    let whole = sum_of(weights);
    let left = whole_parts(total, whole, weights, amounts, rest);
    give_left(left, amounts, rest);
}
