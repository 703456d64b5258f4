// The year: range, stage, and the book of a year that begins.
ghost use Rattle.std.specs.Prelude.{◌≡◌};
ghost use Rattle.quantities.specs.Refusals.{met};
ghost use Rattle.state.specs.State.{reply_with, replied};
ghost use Rattle.book.specs.Year.{year_number_by, year_of};

use plant::Hours;
use quantities::Refusal;
use state::{Book, Stage, check_open};
use table::Call;

// What a year meets: 3, 4, or nothing. Nothing is changed.
#[tactic(auto, unfolding(crate::specs::Year::year_number_by))]
pub fn check_year(stage: Stage, hours: Hours) -> Result<(), Refusal>
    ensures { met result ≡ year_number_by stage hours }
{
    check_open(Call::Year(hours), stage, Stage::Blank)
}

// The year in place.
#[tactic(auto, unfolding(crate::specs::Year::begun, crate::specs::Year::year_of, crate::specs::Year::year_number_by))]
pub fn settle_year(book: &mut Book, hours: Hours) -> Result<(), Refusal>
    ensures { reply_with (met result) book.new ≡ year_of book.old hours }
{
    check_year(book.stage, hours)?;
    book.stage = Stage::Gathering;
    book.hours = hours;
    Ok(())
}

// A year: hours of its stage of greatest thermal requirement, its hours of maximum demand, and those per day.
#[tactic(auto, using(state::proofs::Replies::refused_reply), unfolding(crate::specs::Year::year_of))]
pub fn year(mut book: Book, hours: Hours) -> Result<Book, Refusal>
    ensures { replied book result ≡ year_of book hours }
{
    settle_year(&mut book, hours)?;
    Ok(book)
}
