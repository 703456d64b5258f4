// The four figures of a log, as a value and in a buffer.
ghost use Rattle.std.specs.Prelude.{◌≡◌};
ghost use Rattle.quantities.specs.Refusals.{met, decided};
ghost use Rattle.outages.specs.Outages.{log_answer, Figures};

use crate::entries::{figures_of, window_fits};
use crate::log::{log_in_range, log_of};
use basis::put_numbers;
use power::Minutes;
use quantities::Refusal;

// The bytes of four figures.
const FIGURES_SIZE: usize = 16;

// The figures of a log that is lent as bytes.
#[tactic(auto, unfolding(crate::specs::Log::log_number, crate::specs::Outages::log_minutes))]
pub fn minutes_of_log(log: &[u8]) -> Result<Minutes, Refusal>
    ensures { decided result ≡ log_answer log.now }
{
    let log = log_of(log).ok_or(Refusal::OutOfRange)?;
    if !log_in_range(log) {
        return Err(Refusal::OutOfRange);
    }
    if !window_fits(log.window) {
        return Err(Refusal::OutOfOrder);
    }
    figures_of(log).ok_or(Refusal::OutOfOrder)
}

// The same over the front of a buffer: HD, HMP, HIF and HED, four bytes each, low byte first.
#[tactic(auto, unfolding(crate::specs::Outages::figures_number, crate::specs::Outages::figures_bytes, basis::specs::Numbers::all_bytes_of))]
pub fn write_minutes(log: &[u8], figures: &mut [u8]) -> Result<(), Refusal>
    ensures { Figures log.now figures.old (met result) figures.new }
{
    let minutes = minutes_of_log(log)?;
    if figures.len() < FIGURES_SIZE {
        return Err(Refusal::ShortBuffer);
    }
    let numbers = [minutes.hd, minutes.hmp, minutes.hif, minutes.hed].map(u64::from);
    put_numbers(figures, 4, &numbers);
    Ok(())
}
