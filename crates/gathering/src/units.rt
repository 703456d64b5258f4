// What a call of a unit comes to.
ghost use Rattle.std.specs.Prelude.{◌≡◌};
ghost use Rattle.quantities.specs.Refusals.{decided};
ghost use Rattle.gathering.specs.Units.{unit_answer_of};

use crate::components::{available, tested};
use crate::enrolment::enrolled;
use quantities::Refusal;
use state::{Stage, Unit, check_open};
use table::{Call, UnitCall, check_fields};

// A call of a unit, decided from the stage and the unit: the unit that is to be stored. The unit and what is asked come apart, as the match
// over the call that chose this function has them.
// The readings are lent beside the call, which is a value.
#[tactic(auto, unfolding(table::specs::Ranges::call_number, table::specs::Ranges::rest_in_range, crate::specs::Units::unit_answer_of, crate::specs::Units::unit_number, crate::specs::Units::unit_rest, crate::specs::Units::unit_after))]
pub fn unit_answer(
    unit: u32,
    act: UnitCall,
    stage: Stage,
    u: Unit,
    readings: &[u8],
) -> Result<Unit, Refusal>
    ensures { decided result ≡ unit_answer_of unit act stage u readings.now }
{
    match act {
        UnitCall::Enrol(enrolling) => {
            check_open(Call::Unit { unit, act }, stage, Stage::Gathering)?;
            enrolled(u, enrolling)
        }
        UnitCall::Test { component, trial } => {
            check_fields(Call::Unit { unit, act })?;
            tested(stage, u, component, trial, readings)
        }
        UnitCall::Availability { component, minutes } => {
            check_open(Call::Unit { unit, act }, stage, Stage::Gathering)?;
            available(u, component, minutes)
        }
    }
}
