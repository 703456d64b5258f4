// Tests, and the maximum power that they give.
ghost use Rattle.std.specs.Prelude.{◌≡◌, ◌^◌, ◌*◌, ◌≤◌, ◌<◌, sum_by};
ghost use Rattle.std.specs.Int.{from_le_bytes, w32};
ghost use Rattle.quantities.specs.Limits.{greatest_time, least_time, greatest_reading};
ghost use Rattle.quantities.specs.Refusals.{met};
ghost use Rattle.power.specs.Quantity.{kwh};
ghost use Rattle.power.specs.Power.{maximum_power, count_fits, test_number, measured_of, capped, after_test, answered, test_of};

use crate::card::reached;
use crate::component::{Component, Trial};
use crate::quantity::{Kw, Kwh, Watts, capped_by_kilowatts, over_quarters};
use crate::ranges::test_in_range;
use quantities::Refusal;

// The maximum power of a component, 0 without a result.
pub fn maximum_power(x: Component) -> Watts
    ensures { result ≡ maximum_power x }
{
    x.result.unwrap_or(Watts(0))
}

// The count fits the ending, which is a number as in `Trial`: TC where complete, less where tripped.
fn count_fits(trial: Trial) -> bool
    ensures { result ≡ count_fits trial.ending trial.tc trial.count }
{
    if trial.ending == 0 {
        trial.count == trial.tc
    } else {
        trial.count < trial.tc
    }
}

// What refuses a test: a field out of range, then a count against its full time.
fn check_test(trial: Trial, readings: &[u8]) -> Result<(), Refusal>
    ensures { met result ≡ test_number trial.ending trial.tc trial.count readings.now }
{
    if !test_in_range(trial, readings) {
        return Err(Refusal::OutOfRange);
    }
    if !count_fits(trial) {
        return Err(Refusal::CountAgainstTime);
    }
    Ok(())
}

// The energy of readings.
fn energy_of(readings: &[[u8; 4]]) -> Kwh
    requires { sum_by (from_le_bytes w32) readings.now < 2 ^ 32 }
    ensures { result ≡ kwh (sum_by (from_le_bytes w32) readings.now) }
{
    Kwh(readings.iter().copied().map(u32::from_le_bytes).sum())
}

// What a test gives, nothing where it is void. trip: the component's last ending-2 test was void, with no result since. The ending stays a
// number: an enum would be made of what test_in_range has tested, for three functions. No type of a full time in its range: two functions
// ask for that.
#[tactic(auto, unfolding(crate::specs::Power::measured_of))]
fn measured_of(trip: bool, trial: Trial, energy: Kwh) -> Option<Watts>
    requires { (least_time ≤ trial.tc) × (trial.tc ≤ greatest_time) × (trial.count ≤ trial.tc) × (energy.0 ≤ trial.count * greatest_reading) }
    ensures { result ≡ measured_of trip trial.ending trial.tc trial.count energy }
{
    let reached = reached(trial);
    match trial.ending {
        0 => Some(over_quarters(energy, trial.tc)),
        1 => reached.then(|| over_quarters(energy, trial.count)),
        _ => (reached || trip).then(|| over_quarters(energy, trial.tc)),
    }
}

// A power, capped by PIC if given.
fn capped(cap: Option<Kw>, power: Watts) -> Watts
    ensures { result ≡ capped cap power }
{
    cap.map_or(power, |most| capped_by_kilowatts(power, most))
}

// A component after an accepted test, whose ending is a number as in `Trial`. A match: each case has a component of its own.
#[tactic(auto, unfolding(crate::specs::Power::after_test))]
fn after_test(cap: Option<Kw>, ending: u32, old: Component, measured: Option<Watts>) -> Component
    ensures { result ≡ after_test cap ending old measured }
{
    match measured {
        None => Component {
            void_trip: ending == 2 || old.void_trip,
            ..old
        },
        Some(power) => Component {
            result: Some(capped(cap, power)),
            void_trip: false,
            ..old
        },
    }
}

// A test of a component, with the bytes of its readings, four each.
#[tactic(auto, using(crate::proofs::Accepted::energy_of_chunks), unfolding(crate::specs::Power::test_of))]
pub fn test(
    old: Component,
    cap: Option<Kw>,
    trial: Trial,
    readings: &[u8],
) -> Result<Component, Refusal>
    ensures { answered old result ≡ test_of old cap trial.ending trial.tc trial.count readings.now }
{
    check_test(trial, readings)?;
    let energy = energy_of(readings.as_chunks::<4>().0);
    let measured = measured_of(old.void_trip, trial, energy);
    Ok(after_test(cap, trial.ending, old, measured))
}
