// The division over buffers of bytes.
ghost use Rattle.share.specs.Buffers.{Shares};

use quantities::number_met;

// Divides a total by weights of four bytes each into amounts of eight bytes each, low byte first; answers the number met,
// since C has no Result.
#[unsafe(no_mangle)]
pub extern "C" fn share_divide(total: u64, weights: &[u8], amounts: &mut [u8]) -> u32
    ensures { Shares total weights.now amounts.old result amounts.new }
{
    number_met(share::share_divide(total, weights, amounts))
}
