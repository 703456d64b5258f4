// The fix: range, stage, the division of DMP, and the book of the firm year.
ghost use Rattle.std.specs.Prelude.{◌≡◌};
ghost use Rattle.quantities.specs.Refusals.{met};
ghost use Rattle.share.specs.Division.{shares};
ghost use Rattle.state.specs.State.{reply_with, replied};
ghost use Rattle.fix.specs.Fix.{weights_of, fix_number_by, fixed, fix_of};

use crate::demands::{demands, weights, with_demands};
use crate::offers::{efficient, limits, offers};
use quantities::{CONSUMERS, Refusal};
use state::{Book, Consumer, Stage, check_open};
use table::Call;

// What a fix meets: 3, 4, 13, or nothing. Nothing is changed.
#[tactic(auto, unfolding(crate::specs::Fix::fix_number_by))]
pub fn check_fix(stage: Stage, consumers: &[Consumer; CONSUMERS], dmp: u32) -> Result<(), Refusal>
    ensures { met result ≡ fix_number_by stage consumers.now dmp }
{
    check_open(Call::Fix { dmp }, stage, Stage::Gathering)?;
    share::check_division(dmp.into(), &weights(consumers), CONSUMERS)
}

// The book of the firm year, once DMP is divided: what the fix finds, put into the book, and no other part of it copied.
#[tactic(auto, unfolding(crate::specs::Fix::fixed))]
fn put_fixed(book: &mut Book, dmp: u32, demands: &[u32; CONSUMERS])
    requires { demands.now ≡ shares dmp (weights_of book.old.consumers) }
    ensures { book.new ≡ fixed book.old dmp }
{
    let offers = offers(book.hours, &book.units);
    let efficient = efficient(&book.units, &offers);
    book.limits = limits(&book.units, &efficient);
    book.offers = offers;
    book.efficient = efficient;
    book.consumers = with_demands(demands, &book.consumers);
    book.stage = Stage::Firm;
    book.dmp = dmp;
}

// The fix in place: a refused one changes nothing.
#[tactic(auto, unfolding(crate::specs::Fix::fix_number_by, crate::specs::Fix::fix_of))]
pub fn settle_fix(book: &mut Book, dmp: u32) -> Result<(), Refusal>
    ensures { reply_with (met result) book.new ≡ fix_of book.old dmp }
{
    check_open(Call::Fix { dmp }, book.stage, Stage::Gathering)?;
    let demands = demands(dmp, &book.consumers)?;
    put_fixed(book, dmp, &demands);
    Ok(())
}

// The fix at a projected maximum demand DMP, kW.
#[tactic(auto, using(state::proofs::Replies::refused_reply), unfolding(crate::specs::Fix::fix_of))]
pub fn fix(mut book: Book, dmp: u32) -> Result<Book, Refusal>
    ensures { replied book result ≡ fix_of book dmp }
{
    settle_fix(&mut book, dmp)?;
    Ok(book)
}
