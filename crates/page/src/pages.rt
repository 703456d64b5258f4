// The lines of all declared consumers with the headings of their pages. The place of a line follows from how many stand before it.
ghost use Rattle.std.specs.Prelude.{◌≡◌, ◌+◌, ◌++◌, ◌≤◌, length};
ghost use Rattle.basis.specs.Numbers.{written};
ghost use Rattle.quantities.specs.Limits.{consumers as consumer_count};
ghost use Rattle.page.specs.Page.{declared_consumers, lines_of, pages_of, bytes_for, heading_behind};

use crate::lines::{LINE, heading, line};
use quantities::CONSUMERS;
use state::{CloseFigures, Consumer};
use text::Text;

// The most lines of a page.
const PAGE_LINES: usize = 50;

// The most bytes that a line adds: a heading and its own.
const LONGEST_ADDED: usize = 2 * LINE;

// The bytes of so many lines with the headings of their pages.
// Two functions ask for so many lines: no type of its own.
pub(crate) fn size_of(lines: usize) -> usize
    requires { lines ≤ consumer_count }
    ensures { result ≡ bytes_for lines }
{
    LINE * (lines + lines.div_ceil(PAGE_LINES))
}

// How many consumers are declared.
pub(crate) fn count_declared(consumers: &[Consumer; CONSUMERS]) -> usize
    ensures { (result ≡ length (declared_consumers consumers.now)) × (result ≤ consumer_count) }
{
    consumers
        .iter()
        .filter(|consumer| consumer.declaration.is_declared())
        .count()
}

// A line behind so many others, below a heading where a page begins.
#[tactic(auto, unfolding(crate::specs::Page::heading_behind))]
fn placed(lines: usize, line: &Text<LINE>) -> Text<LONGEST_ADDED>
    ensures { result ≡ heading_behind lines ++ line.now }
{
    let mut text = Text::new();
    if lines % PAGE_LINES == 0 {
        text.push_text(&heading(lines / PAGE_LINES + 1));
    }
    text.push_text(line);
    text
}

// All lines and headings over the front of out, each in its place: the text lies in the caller's memory alone.
#[tactic(auto, using(crate::proofs::Growing::count_at_most, crate::proofs::Growing::standing_none))]
pub(crate) fn put_lines(consumers: &[Consumer; CONSUMERS], closing: &CloseFigures, out: &mut [u8])
    requires { bytes_for (length (declared_consumers consumers.now)) ≤ length out.old }
    ensures { out.new ≡ written out.old 0 (pages_of (lines_of consumers.now closing.now.adjusted closing.now.charges closing.now.credits)) }
{
    // Counted beside the loop: a second enumerate behind a filter_map is no plainer. Its bound: see `size_of`.
    let mut lines = 0;
    for (i, consumer) in consumers.iter().enumerate() {
        let Some(figures) = consumer.declaration.figures() else {
            continue;
        };
        let settlement = line(
            i + 1,
            figures.df,
            closing.adjusted[i],
            closing.charges[i],
            closing.credits[i],
        );
        let text = placed(lines, &settlement);
        let place = size_of(lines);
        out[place..place + text.len()].copy_from_slice(text.as_bytes());
        lines += 1;
    }
}
