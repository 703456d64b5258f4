// The figures of a journal's run.
ghost use Rattle.std.specs.Prelude.{◌≡◌, ℕ, ◌<◌, ◌^◌, get_or};
ghost use Rattle.yearbook_c.specs.Yearbook.{named_of, figures_of, TellsRun};

use basis::put_numbers;
use journal::{Refused, Run, run};
use quantities::Refusal;

// How many figures there are, and the bytes that they take.
const FIGURES: usize = 8;

const FIGURES_SIZE: usize = 8 * FIGURES;

// How many refused records are named, the place and the number of the one that is; 0 where none is.
// C is told of an Option in three figures.
#[derive(Clone, Copy, Debug, PartialEq, Eq)]
pub struct Named {
    pub count: u64,
    pub place: u64,
    pub number: u64,
}

// A match: each case has figures of its own. By `as`: std has no From from usize to u64.
fn named_of(first: Option<Refused>) -> Named
    ensures { result ≡ named_of first }
{
    match first {
        None => Named {
            count: 0,
            place: 0,
            number: 0,
        },
        Some(refused) => Named {
            count: 1,
            place: refused.place as u64,
            number: refused.number.into(),
        },
    }
}

// The figures of a run.
// In the order that yearbook.h names; no From, since C has it as an array. By `as`: std has no From from usize to u64.
fn figures_of(run: &Run) -> [u64; FIGURES]
    ensures value { result ≡ figures_of run.now }
    ensures by_index { (k : ℕ) → get_or result k 0 < 2 ^ 64 }
{
    let named = named_of(run.first);
    [
        run.read as u64,
        run.accepted as u64,
        run.refused as u64,
        run.stop.into(),
        run.place as u64,
        named.count,
        named.place,
        named.number,
    ]
}

// Runs the journal and puts its figures over the front of the buffer, eight bytes each, low byte first; answers 15, or 0.
#[unsafe(no_mangle)]
pub extern "C" fn yearbook_run(journal: &[u8], figures: &mut [u8]) -> u32
    ensures { TellsRun journal.now figures.old result figures.new }
{
    if figures.len() < FIGURES_SIZE {
        return Refusal::ShortBuffer.into();
    }
    put_numbers(figures, 8, &figures_of(&run(journal)));
    0
}
