// The run: each record's call is taken into the ledger, and its answer counted.
ghost use Rattle.std.specs.Prelude.{◌≡◌};
ghost use Rattle.journal.specs.Run.{run_of};

use crate::ledger::Ledger;
use crate::outcome::{Run, Tally};
use record::{Read, read_at, stop_number};

// The run over a journal, from a fresh book.
#[tactic(auto, using(crate::proofs::Underway::begins, crate::proofs::Underway::ends, crate::proofs::Underway::turn_fits, crate::proofs::Underway::turn_less))]
pub fn run(journal: &[u8]) -> Run
    ensures { result ≡ run_of journal.now }
{
    let mut ledger = Ledger::new();
    let mut tally = Tally::new();
    loop {
        let read = read_at(journal, tally.place);
        let Read::Record {
            call,
            readings,
            next,
        } = &read
        else {
            return tally.ended(ledger.book, stop_number(read));
        };
        let answer = ledger.take(call, journal, *readings, *next);
        tally.count(answer, *next);
    }
}
