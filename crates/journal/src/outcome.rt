// What the run returns, and what it counts.
ghost use Rattle.std.specs.Prelude.{◌≡◌, ◌+◌, ◌<◌, ◌^◌};
ghost use Rattle.quantities.specs.Refusals.{met};
ghost use Rattle.journal.specs.Tally.{no_tally, tallied, run_with};

use quantities::Refusal;
use state::Book;

// The place of a record that was refused, and the number that it met.
#[derive(Clone, Copy, Debug, PartialEq, Eq)]
pub struct Refused {
    pub place: usize,
    // The number and not the Refusal: theorems name it, and whoever reads it tells it.
    pub number: u32,
}

#[derive(Clone, Copy, Debug, PartialEq, Eq)]
pub struct Run {
    pub book: Book,
    // Records; the one at which the reading stopped is in no count.
    pub read: usize,
    pub accepted: usize,
    pub refused: usize,
    // The number of the stop and its place, 0 and the journal's length without one. A number, as the
    // run in words and the function for C tell it.
    pub stop: u32,
    pub place: usize,
    // The first record that was refused, if any was.
    pub first: Option<Refused>,
}

// What a run has counted, and where it stands, apart from its book and its stop. `Run` has the same figures as fields of its own, since its
// readers name them there.
#[derive(Clone, Copy, Debug, PartialEq, Eq)]
pub(crate) struct Tally {
    pub(crate) read: usize,
    pub(crate) accepted: usize,
    pub(crate) refused: usize,
    pub(crate) place: usize,
    pub(crate) first: Option<Refused>,
}

impl Tally {
    pub(crate) fn new() -> Tally
        ensures { result ≡ no_tally }
    {
        Tally {
            read: 0,
            accepted: 0,
            refused: 0,
            place: 0,
            first: None,
        }
    }

    // The record at the tally's place is answered, and the next one stands behind it.
    pub(crate) fn count(&mut self, answer: Result<(), Refusal>, next: usize)
        requires { (self.old.read + 1 < 2 ^ 64) × (self.old.accepted + 1 < 2 ^ 64) × (self.old.refused + 1 < 2 ^ 64) }
        ensures { self.new ≡ tallied self.old (met answer) next }
    {
        match answer {
            Ok(()) => self.accepted += 1,
            Err(refusal) => {
                self.refused += 1;
                let refused = Refused {
                    place: self.place,
                    number: refusal.into(),
                };
                self.first = self.first.or(Some(refused));
            }
        }
        self.read += 1;
        self.place = next;
    }

    // The run that ends with the tally and a book, at a stop or without one. The stop is a number, as in `Run`.
    pub(crate) fn ended(self, book: Book, stop: u32) -> Run
        ensures { result ≡ run_with self book stop }
    {
        Run {
            book,
            read: self.read,
            accepted: self.accepted,
            refused: self.refused,
            stop,
            place: self.place,
            first: self.first,
        }
    }
}
