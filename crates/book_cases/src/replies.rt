// The replies to a journal's calls, one behind the other.
ghost use Rattle.std.specs.Prelude.{◌-◌, length};
ghost use Rattle.std.specs.Iterator.{at_most};

use quantities::number_met;
use record::Read;
use state::Book;
use std::mem;

// The calls that are still to be answered: those from a place of the journal on, with the book that the calls before it have made.
#[derive(Clone, Copy, Debug, PartialEq, Eq)]
pub struct Replies<'a> {
    journal: &'a [u8],
    pub place: usize,
    pub book: Book,
}

impl<'a> Replies<'a> {
    pub fn new(journal: &'a [u8]) -> Replies<'a> {
        Replies {
            journal,
            place: 0,
            book: book::fresh(),
        }
    }

    // The number at which the reading stops here, 0 at the journal's end.
    pub fn stop(&self) -> u32 {
        record::stop_number(record::read_at(self.journal, self.place))
    }
}

// Each record's place, and the number that answers its call.
impl Iterator for Replies<'_> {
    type Item = (usize, u32);

    ghost remaining = { λ s. at_most (length s.journal.now - s.place) };

    #[tactic(auto, using(record::proofs::RoundTrip::read_is_placed))]
    fn next(&mut self) -> Option<(usize, u32)> {
        let Read::Record {
            call,
            readings,
            next,
        } = record::read_at(self.journal, self.place)
        else {
            return None;
        };
        let readings = record::readings_of(self.journal, readings, next);
        let answer = book::step(self.book, call, readings);
        self.book = answer.unwrap_or(self.book);
        Some((mem::replace(&mut self.place, next), number_met(answer)))
    }
}
