// Ranges of a test and of an availability.
ghost use Rattle.std.specs.Prelude.{◌≡◌, leb};
ghost use Rattle.std.specs.Int.{from_le_bytes, w32};
ghost use Rattle.std.specs.List.{list_all};
ghost use Rattle.quantities.specs.Limits.{greatest_reading};
ghost use Rattle.power.specs.Ranges.{test_in_range, minutes_in_range};

use crate::component::{Minutes, Trial};
use quantities::{
    GREATEST_COUNT, GREATEST_ENDING, GREATEST_MINUTES, GREATEST_READING, GREATEST_TIME, LEAST_TIME,
};

// Each reading, four bytes from the low one up, is at most 750,000 kWh.
fn readings_in_range(readings: &[[u8; 4]]) -> bool
    ensures { result ≡ list_all (λ bytes. leb (from_le_bytes w32 bytes) greatest_reading) readings.now }
{
    readings.iter().all(|bytes| u64::from(u32::from_le_bytes(*bytes)) <= GREATEST_READING)
}

// A test's ending, TC, count, lent length and readings are in range. The count is widened by `as`: a usize has no From from a u32.
#[tactic(auto, using(crate::proofs::Readings::all_readings))]
pub fn test_in_range(trial: Trial, readings: &[u8]) -> bool
    ensures { result ≡ test_in_range trial.ending trial.tc trial.count readings.now }
{
    trial.ending <= GREATEST_ENDING
        && LEAST_TIME <= trial.tc
        && trial.tc <= GREATEST_TIME
        && trial.count <= GREATEST_COUNT
        && readings.len() == 4 * trial.count as usize
        && readings_in_range(readings.as_chunks::<4>().0)
}

// Each figure of an availability is in range.
pub fn minutes_in_range(m: Minutes) -> bool
    ensures { result ≡ minutes_in_range m.hd m.hmp m.hif m.hed }
{
    m.hd <= GREATEST_MINUTES
        && m.hmp <= GREATEST_MINUTES
        && m.hif <= GREATEST_MINUTES
        && m.hed <= GREATEST_MINUTES
}
