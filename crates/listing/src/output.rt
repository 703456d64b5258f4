// What the program writes for its input.
ghost use Rattle.quantities.specs.Refusals.{filled};
ghost use Rattle.listing.specs.Listing.{Lists, too_long, output_of};

use crate::{put_listing, put_whole};
use journal::run;
use quantities::Refusal;
use text::Text;

// The most bytes of input that have a listing; what takes an input compares its length with this.
// A buyer gives any bytes: a type of shorter inputs would be made and asked in the same line.
pub const MOST_INPUT: usize = 65_536;

// The line of an input that is too long, over the caller's buffer too.
fn put_too_long(out: &mut [u8]) -> Result<usize, Refusal>
    ensures { Lists too_long out.old (filled result) out.new }
{
    put_whole(&Text::from(*b"X\n"), out)
}

// The output for an input, over the front of out.
// Over the caller's buffer, as C lends it.
#[tactic(auto, unfolding(crate::specs::Listing::output_of))]
pub fn put_output(input: &[u8], out: &mut [u8]) -> Result<usize, Refusal>
    ensures { Lists (output_of input.now) out.old (filled result) out.new }
{
    if MOST_INPUT < input.len() {
        put_too_long(out)
    } else {
        put_listing(&run(input), out)
    }
}
