// The reader: what stands at a place of a journal of any bytes, and the part of it that holds a test's readings.
ghost use Rattle.std.specs.Prelude.{◌≡◌, ◌<◌, length};
ghost use Rattle.record.specs.Reading.{read_marked, read_at, stop_number, part_of};

use table::{Call, ConsumerField, Mark, call_of, form_of, mark_at, readings_size};

// What stands at a place: nothing, a record that is cut short, an unknown mark, or a whole record. An enum, since one match names the four
// cases: a Result of an Option would take two.
#[derive(Clone, Copy, Debug, PartialEq, Eq)]
pub enum Read {
    End,
    Cut,
    Unknown,
    // The call, the place where its readings start, and the place behind it; without readings both are the same. Places, since a run names
    // them, and ReadIsPlaced and ReadIsAlone speak of them.
    Record {
        call: Call,
        readings: usize,
        next: usize,
    },
}

// The record of a known mark that stands at a place.
#[inline(always)]
fn read_marked(journal: &[u8], at: usize, mark: Mark) -> Read
    requires { at < length journal.now }
    ensures { result ≡ read_marked journal.now at mark }
{
    let left = journal.len() - at;
    let size = form_of(mark).size;
    if left < size {
        return Read::Cut;
    }
    let readings = at + size;
    let call = call_of(mark, &journal[at + 2..readings]);
    let more = readings_size(call);
    if left - size < more {
        return Read::Cut;
    }
    Read::Record {
        call,
        readings,
        next: readings + more,
    }
}

// The same, with a copy of the code for each mark, in which its widths are constants: a bar of speed binds the run.
#[inline(always)]
fn read_each(journal: &[u8], at: usize, mark: Mark) -> Read
    requires { at < length journal.now }
    ensures { result ≡ read_marked journal.now at mark }
{
    match mark {
        Mark::Year => read_marked(journal, at, Mark::Year),
        Mark::Enrol => read_marked(journal, at, Mark::Enrol),
        Mark::Test => read_marked(journal, at, Mark::Test),
        Mark::Availability => read_marked(journal, at, Mark::Availability),
        Mark::Declare(ConsumerField::Narrow) => read_marked(
            journal,
            at,
            Mark::Declare(ConsumerField::Narrow),
        ),
        Mark::Declare(ConsumerField::Wide) => read_marked(
            journal,
            at,
            Mark::Declare(ConsumerField::Wide),
        ),
        Mark::Fix => read_marked(journal, at, Mark::Fix),
        Mark::Commit(ConsumerField::Narrow) => read_marked(
            journal,
            at,
            Mark::Commit(ConsumerField::Narrow),
        ),
        Mark::Commit(ConsumerField::Wide) => read_marked(
            journal,
            at,
            Mark::Commit(ConsumerField::Wide),
        ),
        Mark::Release(ConsumerField::Narrow) => read_marked(
            journal,
            at,
            Mark::Release(ConsumerField::Narrow),
        ),
        Mark::Release(ConsumerField::Wide) => read_marked(
            journal,
            at,
            Mark::Release(ConsumerField::Wide),
        ),
        Mark::Meter(ConsumerField::Narrow) => read_marked(
            journal,
            at,
            Mark::Meter(ConsumerField::Narrow),
        ),
        Mark::Meter(ConsumerField::Wide) => read_marked(
            journal,
            at,
            Mark::Meter(ConsumerField::Wide),
        ),
        Mark::Close => read_marked(journal, at, Mark::Close),
        Mark::Mean(ConsumerField::Narrow) => read_marked(
            journal,
            at,
            Mark::Mean(ConsumerField::Narrow),
        ),
        Mark::Mean(ConsumerField::Wide) => read_marked(
            journal,
            at,
            Mark::Mean(ConsumerField::Wide),
        ),
    }
}

// What stands at a place of a journal; any journal and any place are taken. Each case has an answer of its own: a match, and no map. Never inlined:
// on its own, the match that finds a mark leads straight to the mark's own code; inside the run the mark would be asked a second time.
#[inline(never)]
#[tactic(auto, using(crate::proofs::Reader::at_end, crate::proofs::Reader::at_one))]
pub fn read_at(journal: &[u8], at: usize) -> Read
    ensures { result ≡ read_at journal.now at }
{
    if journal.len() <= at {
        return Read::End;
    }
    if journal.len() - at < 2 {
        return Read::Cut; // a mark has two bytes
    }
    match mark_at(basis::number_at(journal, at, 2) as u32) {
        None => Read::Unknown,
        Some(mark) => read_each(journal, at, mark),
    }
}

// The number at which the reading stops there, 0 where it does not: a run tells a buyer and C this number.
// No From: it would give a whole record a number too.
pub fn stop_number(read: Read) -> u32
    ensures { result ≡ stop_number read }
{
    match read {
        Read::End => 0,
        Read::Cut => 1,
        Read::Unknown => 2,
        Read::Record { .. } => 0,
    }
}

// The part of the journal between two places, empty where there is none.
#[tactic(auto, unfolding(crate::specs::Reading::part_of))]
pub fn readings_of(journal: &[u8], from: usize, to: usize) -> &[u8]
    ensures { result.now ≡ part_of journal.now from to }
{
    journal.get(from..to).unwrap_or(&[])
}
