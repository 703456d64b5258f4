// The division over buffers of bytes, as the functions for C have it.
ghost use Rattle.std.specs.Prelude.{◌≡◌, ◌*◌, ◌≤◌, length};
ghost use Rattle.basis.specs.Numbers.{numbers_of};
ghost use Rattle.quantities.specs.Refusals.{met};
ghost use Rattle.share.specs.Buffers.{Shares};

use basis::{number_at, put_numbers};
use quantities::{MOST_WEIGHTS, Refusal};

// The numbers of four bytes each that the buffer holds, into the weights.
pub(crate) fn read_weights(buffer: &[u8], weights: &mut [u64])
    requires { 4 * length weights.old ≤ length buffer.now }
    ensures { weights.new ≡ numbers_of 4 (length weights.old) buffer.now }
{
    // Over `zip`, iter_mut and as_chunks it was not proved: the loop's invariant then has no weights to speak of.
    for (i, weight) in weights.iter_mut().enumerate() {
        *weight = number_at(buffer, 4 * i, 4);
    }
}

// The division of a buffer that holds as many weights as there are numbers and parts, which are room to work in.
pub(crate) fn divide_buffer(
    total: u64,
    buffer: &[u8],
    amounts: &mut [u8],
    numbers: &mut [u64],
    parts: &mut [u64],
) -> Result<(), Refusal>
    requires { (length buffer.now ≡ 4 * length numbers.old) × (length parts.old ≡ length numbers.old) }
    ensures { Shares total buffer.now amounts.old (met result) amounts.new }
{
    read_weights(buffer, numbers);
    crate::check_division(total, numbers, amounts.len() / 8)?;
    crate::divide(total, numbers, parts)?;
    put_numbers(amounts, 8, parts);
    Ok(())
}

// Divides a total by weights of four bytes each into amounts of eight bytes each, low byte first. The numbers and the parts are
// arrays of the most weights there are, since the library has no heap.
pub fn share_divide(total: u64, weights: &[u8], amounts: &mut [u8]) -> Result<(), Refusal>
    ensures { Shares total weights.now amounts.old (met result) amounts.new }
{
    let n = weights.len() / 4;
    if weights.len() % 4 != 0 || MOST_WEIGHTS < n {
        return Err(Refusal::OutOfRange);
    }
    let mut numbers = [0u64; MOST_WEIGHTS];
    let mut parts = [0u64; MOST_WEIGHTS];
    divide_buffer(total, weights, amounts, &mut numbers[..n], &mut parts[..n])
}
