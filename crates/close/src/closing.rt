// The close: range, stage, numbers 16, 14 and 19, and the figures on copies of what the book keeps.
ghost use Rattle.std.specs.Prelude.{◌≡◌, true, ◌≤◌};
ghost use Rattle.basis.specs.Sums.{all_at_most};
ghost use Rattle.quantities.specs.Limits.{greatest_power, greatest_price};
ghost use Rattle.quantities.specs.Refusals.{met};
ghost use Rattle.state.specs.State.{reply_with, replied};
ghost use Rattle.close.specs.Close.{adjusted_in, figures_of, close_number_by, close_number, closed, close_of};

use crate::adjusted::{adjusted, is_heard, is_within, real_demands, total_declared};
use crate::money::{charges, check_charges, credits, surpluses};
use quantities::{CONSUMERS, Refusal};
use state::{Book, CloseFigures, Consumer, Stage, check_open};
use table::Call;

// The figures of a close at P, once no DFA is above the greatest: a bound that each contract states in its own terms, of a consumer, a list or
// a figure. No type of a price in its range: two functions ask for that.
fn figures(p: u32, dmp: u32, consumers: &[Consumer; CONSUMERS]) -> CloseFigures
    requires { (p ≤ greatest_price) × (all_at_most greatest_power (adjusted_in dmp consumers.now) ≡ true) }
    ensures { result ≡ figures_of p dmp consumers.now }
{
    let adjusted = adjusted(dmp, total_declared(consumers), &real_demands(consumers));
    let charges = charges(p, &adjusted, consumers);
    let surpluses = surpluses(&adjusted, consumers);
    let charged = charges.iter().sum();
    let credits = credits(charged, &surpluses);
    let credited = credits.iter().sum();
    CloseFigures {
        adjusted,
        charges,
        credits,
        charged,
        credited,
        undistributed: charged - credited,
    }
}

// What a close meets, from ΣD, and the real demand and the declaration of each consumer: 3, 4, 16, 14, 19, or nothing. Nothing is changed. DMP
// and ΣD come as two figures: DMP stands in the book, and a run keeps ΣD, and the real demands, beside it.
#[tactic(auto, unfolding(crate::specs::Close::close_number_by))]
pub fn check_close(
    stage: Stage,
    dmp: u32,
    total: u64,
    reals: &[Option<u32>; CONSUMERS],
    consumers: &[Consumer; CONSUMERS],
    p: u32,
) -> Result<(), Refusal>
    ensures { met result ≡ close_number_by stage dmp total reals.now consumers.now p }
{
    check_open(Call::Close { p }, stage, Stage::Firm)?;
    if !is_heard(reals) {
        return Err(Refusal::NoRealDemand);
    }
    if !is_within(dmp, total, reals) {
        return Err(Refusal::AboveGreatestPower);
    }
    check_charges(p, &adjusted(dmp, total, reals), consumers)
}

// The same, of the book as it stands.
fn check_book(book: &Book, p: u32) -> Result<(), Refusal>
    ensures { met result ≡ close_number book.now p }
{
    let total = total_declared(&book.consumers);
    let reals = real_demands(&book.consumers);
    check_close(book.stage, book.dmp, total, &reals, &book.consumers, p)
}

// The figures of a close that every check has passed: they are worked out beside the book, and put into it. For our own crates and not for buyers.
#[tactic(auto, unfolding(crate::specs::Close::closed))]
pub fn put_closed(book: &mut Book, p: u32)
    requires { close_number book.old p ≡ 0 }
    ensures { book.new ≡ closed book.old p }
{
    book.closing = figures(p, book.dmp, &book.consumers);
    book.stage = Stage::Closed;
}

// The close in place.
#[tactic(auto, unfolding(crate::specs::Close::close_of))]
pub fn settle_close(book: &mut Book, p: u32) -> Result<(), Refusal>
    ensures { reply_with (met result) book.new ≡ close_of book.old p }
{
    check_book(book, p)?;
    put_closed(book, p);
    Ok(())
}

// The close at P cents per kW-month.
#[tactic(auto, using(state::proofs::Replies::refused_reply), unfolding(crate::specs::Close::close_of))]
pub fn close(mut book: Book, p: u32) -> Result<Book, Refusal>
    ensures { replied book result ≡ close_of book p }
{
    settle_close(&mut book, p)?;
    Ok(book)
}
