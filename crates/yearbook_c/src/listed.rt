// The listing of a journal.
ghost use Rattle.yearbook_c.specs.Yearbook.{ListsJournal};

use journal::run;
use listing::put_listing;

// Runs the journal and puts its listing over the front of the buffer; answers 15, or 0 with the bytes of the text.
// Apart from yearbook_page: yearbook.h has uint64_t here and size_t there. By `as`: std has no From from usize to u64.
#[tactic(auto, unfolding(listing::specs::Listing::listed_of))]
#[unsafe(no_mangle)]
pub extern "C" fn yearbook_list(journal: &[u8], listing: &mut [u8], written: &mut u64) -> u32
    ensures { ListsJournal journal.now listing.old written.old result listing.new written.new }
{
    match put_listing(&run(journal), listing) {
        Ok(size) => {
            *written = size as u64;
            0
        }
        Err(refusal) => refusal.into(),
    }
}
