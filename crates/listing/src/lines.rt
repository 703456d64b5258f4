// The listing of a run, letter after letter, each behind what the listing has so far.
ghost use Rattle.std.specs.Prelude.{◌≡◌, ◌++◌, ◌+◌, ◌≤◌, length};
ghost use Rattle.listing.specs.Listing.{firm_lines, closed_lines, stage_lines, listing_of};

use journal::Run;
pub use letters::LONGEST;
use letters::{
    LONGEST_CLOSED, LONGEST_FIRM, push_demand_lines, push_producer_lines, push_settlement_lines,
    push_unit_lines,
};
use state::{Book, Stage};
use text::{Text, line};

// U, P and D, at the beginning of a listing.
#[inline(never)]
#[tactic(auto, unfolding(crate::specs::Listing::firm_lines))]
fn push_firm(book: &Book, lines: &mut Text<LONGEST>)
    requires { length lines.old ≤ 0 }
    ensures text { lines.new ≡ lines.old ++ firm_lines book.now }
    ensures room { length lines.new ≤ LONGEST_FIRM }
{
    push_unit_lines(&book.units, &book.offers, &book.efficient, lines);
    push_producer_lines(&book.units, &book.limits, &book.balances, lines);
    push_demand_lines(&book.consumers, lines);
}

// S and T behind them.
#[inline(never)]
#[tactic(auto, unfolding(crate::specs::Listing::closed_lines))]
fn push_closed(book: &Book, lines: &mut Text<LONGEST>)
    requires { length lines.old ≤ LONGEST_FIRM }
    ensures text { lines.new ≡ lines.old ++ closed_lines book.now }
    ensures room { length lines.new ≤ LONGEST_FIRM + LONGEST_CLOSED }
{
    let closing = &book.closing;
    push_settlement_lines(&book.consumers, closing, lines);
    lines.push_text(&line(
        b'T',
        &[
            closing.charged.into(),
            closing.credited.into(),
            closing.undistributed.into(),
        ],
    ));
}

// The lines that the book's stage has.
#[tactic(auto, unfolding(crate::specs::Listing::stage_lines))]
fn push_stage(book: &Book, lines: &mut Text<LONGEST>)
    requires { length lines.old ≤ 0 }
    ensures text { lines.new ≡ lines.old ++ stage_lines book.now.stage book.now }
    ensures room { length lines.new ≤ LONGEST_FIRM + LONGEST_CLOSED }
{
    match book.stage {
        Stage::Blank | Stage::Gathering => {}
        Stage::Firm => push_firm(book, lines),
        Stage::Closed => {
            push_firm(book, lines);
            push_closed(book, lines);
        }
    }
}

// The whole listing, into a text that is empty: it is the caller's, so that its bytes are never copied.
#[inline(never)]
#[tactic(auto, unfolding(crate::specs::Listing::listing_of))]
pub(crate) fn push_listing(run: &Run, lines: &mut Text<LONGEST>)
    requires { length lines.old ≤ 0 }
    ensures { lines.new ≡ lines.old ++ listing_of run.now }
{
    push_stage(&run.book, lines);
    lines.push_text(&line(
        b'R',
        &[run.read.into(), run.accepted.into(), run.refused.into()],
    ));
}

// The same as a text of its own.
pub fn listing(run: &Run) -> Text<LONGEST>
    ensures { result ≡ listing_of run.now }
{
    let mut listing = Text::new();
    push_listing(run, &mut listing);
    listing
}
