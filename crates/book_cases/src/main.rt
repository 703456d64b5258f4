// Runs the journal of standard input, up to 65,536 bytes, and writes the place and the number of each record read, the stop, and what
// the book then answers, in the form of the listing.
#![tactic(auto)]

ghost use Rattle.std.specs.Prelude.{◌≤◌, length, IfOk};

mod replies; // replies.rt: the replies to a journal's calls

use quantities::{CONSUMERS, PRODUCERS, UNITS};
use questions::{Adjustment, Offers, Signed, Totals};
use replies::Replies;
use state::{Book, Stage};
use std::fmt;
use std::io::{self, BufWriter, Write};

// The bytes of a journal, at most.
const MOST: usize = 65_536;

// A number with a minus sign where it is below 0. The library prints nothing, and Display of another crate's type needs a type of one's own.
#[derive(Clone, Copy, Debug, PartialEq, Eq)]
struct Shown(Signed);

impl fmt::Display for Shown {
    fn fmt<W: fmt::Write>(&self, f: &mut fmt::Formatter<W>) -> fmt::Result {
        match self.0 {
            Signed::Plus(x) => write!(f, "{x}"),
            Signed::Minus(x) => write!(f, "-{x}"),
        }
    }
}

// A charge is below 0, a credit is not.
fn cents(x: Adjustment) -> Shown {
    Shown(if x.charge == 0 {
        Signed::Plus(x.credit)
    } else {
        Signed::Minus(x.charge)
    })
}

// By numbers: a question takes one, here and below.
fn show_firm<W: Write>(out: &mut W, book: &Book) -> io::Result<()> {
    for unit in 1..=UNITS as u32 {
        if let Some(Offers { firm, efficient }) = questions::unit_offers(book, unit) {
            writeln!(out, "U {unit} {firm} {efficient}")?;
        }
    }
    for producer in 1..=PRODUCERS as u32 {
        if let Some(Totals { limit, committed }) = questions::producer_totals(book, producer) {
            writeln!(out, "P {producer} {limit} {committed}")?;
        }
    }
    for consumer in 1..=CONSUMERS as u32 {
        if let Some(figures) = questions::declaration_of(book, consumer).figures() {
            writeln!(out, "D {consumer} {}", figures.df)?;
        }
    }
    Ok(())
}

fn show_closed<W: Write>(out: &mut W, book: &Book) -> io::Result<()> {
    for consumer in 1..=CONSUMERS as u32 {
        if let Some(x) = questions::adjustment_of(book, consumer) {
            writeln!(out, "S {consumer} {} {}", Shown(x.adf), cents(x))?;
        }
    }
    let totals = questions::close_totals(book);
    writeln!(
        out,
        "T {} {} {}",
        totals.charged, totals.credited, totals.undistributed
    )
}

// What a book of its stage has to show.
fn show_book<W: Write>(out: &mut W, book: &Book) -> io::Result<()> {
    match questions::stage_of(book) {
        Stage::Blank | Stage::Gathering => Ok(()),
        Stage::Firm => show_firm(out, book),
        Stage::Closed => {
            show_firm(out, book)?;
            show_closed(out, book)
        }
    }
}

// Reads until the space is full or the input ends; answers how many bytes.
fn read_full<R: io::Read>(reader: &mut R, space: &mut [u8]) -> io::Result<usize>
    ensures { IfOk result (λ count. count ≤ length space.new) }
{
    let mut count = 0;
    while count < space.len() {
        let more = reader.read(&mut space[count..])?;
        if more == 0 {
            break;
        }
        count += more;
    }
    Ok(count)
}

fn main(rt: HostRuntime) -> io::Result<()> {
    let mut space = [0; MOST];
    let size = read_full(&mut rt.stdin(), &mut space)?;
    let mut out = BufWriter::new(rt.alloc(), io::writer(&rt))?;
    let mut replies = Replies::new(&space[..size]);
    let mut accepted: u64 = 0;
    let mut refused: u64 = 0;
    for (place, number) in replies.by_ref() {
        writeln!(out, "{place} {number}")?;
        if number == 0 {
            accepted = accepted.wrapping_add(1);
        } else {
            refused = refused.wrapping_add(1);
        }
    }
    writeln!(out, "stop {} {}", replies.stop(), replies.place)?;
    show_book(&mut out, &replies.book)?;
    let read = accepted.wrapping_add(refused);
    writeln!(out, "R {read} {accepted} {refused}")?;
    out.flush()
}
