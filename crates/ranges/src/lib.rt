// Number 3: what the ranges of a call's single fields leave, and the refusal of any call out of range.
#![tactic(auto)]

ghost use Rattle.std.specs.Prelude.{◌≡◌};
ghost use Rattle.quantities.specs.Refusals.{met};
ghost use Rattle.table.specs.Ranges.{rest_in_range, call_number};

mod unused; // unused.rt: the fields that a unit does not use

use quantities::Refusal;
use table::{Call, UnitCall, check_fields};
use unused::unused_zero;

// What the ranges of single fields leave: a unit's unused fields, and a test's readings, lent beside the call, which is a value.
#[tactic(auto, unfolding(table::specs::Ranges::rest_in_range))]
fn rest_in_range(call: Call, readings: &[u8]) -> bool
    ensures { result ≡ rest_in_range call readings.now }
{
    match call {
        Call::Unit {
            act: UnitCall::Enrol(enrolling),
            ..
        } => unused_zero(enrolling),
        Call::Unit {
            act: UnitCall::Test { trial, .. },
            ..
        } => power::test_in_range(trial, readings),
        _ => true,
    }
}

// Refuses a call with a field, or what is lent with a test, out of range. The readings are lent beside the call, which is a value.
#[inline(always)]
#[tactic(auto, unfolding(table::specs::Ranges::fields_number, table::specs::Ranges::call_number))]
pub fn check_call(call: Call, readings: &[u8]) -> Result<(), Refusal>
    ensures { met result ≡ call_number call readings.now }
{
    check_fields(call)?;
    if !rest_in_range(call, readings) {
        return Err(Refusal::OutOfRange);
    }
    Ok(())
}
