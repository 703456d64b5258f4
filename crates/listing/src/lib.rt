// The listing of a run, line by line ("Journal in, listing out").
#![tactic(auto)]

mod lines; // lines.rt: the listing, letter after letter
mod output; // output.rt: what the program writes for its input

ghost use Rattle.std.specs.Prelude.{◌≤◌};
ghost use Rattle.quantities.specs.Refusals.{filled};
ghost use Rattle.listing.specs.Listing.{listing_of, listing_most, Lists};

use journal::Run;
use lines::push_listing;
pub use lines::{LONGEST, listing};
pub use output::{MOST_INPUT, put_output};
pub use quantities::Refusal;
use text::Text;

// A text over the front of out, which the caller lends, as C does: 15 where out is shorter than the text, else the bytes of the text.
#[tactic(auto, unfolding(crate::specs::Listing::listed_of, crate::specs::Listing::listed_in))]
fn put_whole<const N: usize>(text: &Text<N>, out: &mut [u8]) -> Result<usize, Refusal>
    requires { N ≤ listing_most }
    ensures { Lists text.now out.old (filled result) out.new }
{
    let bytes = text.as_bytes();
    if out.len() < bytes.len() {
        return Err(Refusal::ShortBuffer);
    }
    out[..bytes.len()].copy_from_slice(bytes);
    Ok(bytes.len())
}

// The listing of a run over the front of out, which the caller lends, as C does.
pub fn put_listing(run: &Run, out: &mut [u8]) -> Result<usize, Refusal>
    ensures { Lists (listing_of run.now) out.old (filled result) out.new }
{
    let mut lines = Text::new();
    push_listing(run, &mut lines);
    put_whole(&lines, out)
}
