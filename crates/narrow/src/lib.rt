// The converter of a journal for 300 consumers into one for 64 (document 02, A7): what it accepts comes out with its own bytes.
#![tactic(auto)]

ghost use Rattle.std.specs.Prelude.{◌≡◌, ◌+◌, ◌≤◌, length};
ghost use Rattle.record.specs.Reading.{wide_at};
ghost use Rattle.narrow.specs.Narrow.{narrow_stop, Narrows};

use quantities::Refusal;
use record::{Read, read_at, stop_number};
use table::mark_at;

// Where the converter ends before the journal's end: the place of the record that meets a number, and the number, 1, 2 or 18. A number and not
// the Refusal: 1 and 2 are none.
#[derive(Clone, Copy, Debug, PartialEq, Eq)]
pub struct Stopped {
    pub place: usize,
    pub number: u32,
}

// Whether the mark at a place is one for consumers above 64.
#[tactic(auto, unfolding(record::specs::Reading::wide_at))]
fn is_wide_at(journal: &[u8], at: usize) -> bool
    requires { at + 2 ≤ length journal.now }
    ensures { result ≡ wide_at journal.now at }
{
    match mark_at(basis::number_at(journal, at, 2) as u32) {
        None => false,
        Some(mark) => mark.is_wide(),
    }
}

// The first record that meets a number, if one does: cut short, of an unknown mark, or of a mark for consumers above 64. Ranges are not tested.
#[tactic(auto, using(crate::proofs::Turns::begins, crate::proofs::Turns::marked, crate::proofs::Turns::stops, crate::proofs::Turns::goes_on, crate::proofs::Turns::less, crate::proofs::Turns::ends))]
pub fn first_stop(journal: &[u8]) -> Option<Stopped>
    ensures { result ≡ narrow_stop journal.now }
{
    let mut place = 0;
    loop {
        let read = read_at(journal, place);
        let Read::Record { next, .. } = read else {
            let number = stop_number(read);
            return (number != 0).then_some(Stopped { place, number });
        };
        if is_wide_at(journal, place) {
            let number = Refusal::WideMark.into();
            return Some(Stopped { place, number });
        }
        place = next;
    }
}

// Puts the journal for 64 consumers, which is the journal itself, over the front of the buffer; answers 1, 2, 18, 15, or 0. The journal is read to its
// end before a byte is written.
pub fn narrow(journal: &[u8], out: &mut [u8]) -> u32
    ensures { Narrows journal.now out.old result out.new }
{
    match first_stop(journal) {
        Some(stopped) => stopped.number,
        None if out.len() < journal.len() => Refusal::ShortBuffer.into(),
        None => {
            out[..journal.len()].copy_from_slice(journal);
            0
        }
    }
}
