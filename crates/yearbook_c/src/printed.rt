// The printed close of a journal.
ghost use Rattle.yearbook_c.specs.Yearbook.{PrintsJournal};

use journal::run;
use page::put_page;

// Runs the journal and puts its printed close over the front of the buffer; answers 4, 15, or 0 with the bytes of the text.
#[tactic(auto, unfolding(page::specs::Page::printed_of))]
#[unsafe(no_mangle)]
pub extern "C" fn yearbook_page(journal: &[u8], page: &mut [u8], length: &mut usize) -> u32
    ensures { PrintsJournal journal.now page.old length.old result page.new length.new }
{
    match put_page(run(journal).book, page) {
        Ok(size) => {
            *length = size;
            0
        }
        Err(refusal) => refusal.into(),
    }
}
