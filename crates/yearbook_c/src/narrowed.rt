// The journal for 64 consumers that is made of one for 300.
ghost use Rattle.narrow.specs.Narrow.{Narrows};

// Puts the journal, if no record of it is for consumers above 64, over the front of the buffer; answers 1, 2, 18, 15, or 0.
#[unsafe(no_mangle)]
pub extern "C" fn yearbook_narrow(journal: &[u8], out: &mut [u8]) -> u32
    ensures { Narrows journal.now out.old result out.new }
{
    narrow::narrow(journal, out)
}
