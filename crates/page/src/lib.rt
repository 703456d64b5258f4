// The printed close on 36 columns: a line for each declared consumer of a closed book, 50 to a page, each page with its heading.
#![tactic(auto)]

mod lines; // lines.rt: a heading and a line
mod pages; // pages.rt: all lines with their headings, and where they stand
mod promises; // promises.rt: theorems about the pages

ghost use Rattle.quantities.specs.Refusals.{filled};
ghost use Rattle.page.specs.Page.{Prints};

use pages::{count_declared, put_lines, size_of};
pub use promises::{always_paged, case_j};
pub use quantities::Refusal;
use state::{Book, Stage, check_stage};

// The printed close of a book over the front of out, which the caller lends, as C does: its bytes, or 4 where the book is not closed, 15 where out is shorter than the text.
#[tactic(auto, using(crate::proofs::Answers::text_laws), unfolding(crate::specs::Page::print_number, crate::specs::Page::printed_of, crate::specs::Page::printed_in))]
pub fn put_page(book: Book, out: &mut [u8]) -> Result<usize, Refusal>
    ensures { Prints book out.old (filled result) out.new }
{
    check_stage(book.stage, Stage::Closed)?;
    let size = size_of(count_declared(&book.consumers));
    if out.len() < size {
        return Err(Refusal::ShortBuffer);
    }
    put_lines(&book.consumers, &book.closing, out);
    Ok(size)
}
