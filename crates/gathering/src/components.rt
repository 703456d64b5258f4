// The components of a unit, and a test or an availability of one, once it is in range and its stage is right.
ghost use Rattle.std.specs.Prelude.{◌≡◌, ◌≤◌, eqb};
ghost use Rattle.std.specs.Borrow.{sem};
ghost use Rattle.basis.specs.Choice.{pick};
ghost use Rattle.quantities.specs.Refusals.{met, decided, decided_by};
ghost use Rattle.quantities.specs.Limits.{greatest_component};
ghost use Rattle.power.specs.Ranges.{test_in_range};
ghost use Rattle.state.specs.declared.kept.Stage.TheVariants.{Gathering};
ghost use Rattle.state.specs.State.{staged};
ghost use Rattle.gathering.specs.Units.{has_test, has_availability, test_rest, tested_unit, availability_rest, available_unit};
ghost use Rattle.gathering.specs.Lending.{LendsComponent, component_in};

use plant::{Component, Components, Minutes, Trial};
use quantities::Refusal;
use state::{Stage, Unit, check_stage};

// The kind that has storage, and all three components. Kinds and components are numbers, as the call holds them: a record may hold any, and
// its range is tested before.
const WITH_STORAGE: u32 = 8;

// Kind 8 is tested in all three components, others in component 0.
fn has_test(kind: u32, component: u32) -> bool
    ensures { result ≡ has_test kind component }
{
    kind == WITH_STORAGE || component == 0
}

// Kind 8 has availability for components 1 and 2, others for component 0.
fn has_availability(kind: u32, component: u32) -> bool
    ensures { result ≡ has_availability kind component }
{
    if kind == WITH_STORAGE {
        component != 0
    } else {
        component == 0
    }
}

// A component, by its number. Apart from `Part::of` of plant_cases, which refuses other numbers.
fn component_mut(components: &mut Components, component: u32) -> &mut Component
    ensures* writes_back { sem 𝓛 (LendsComponent components.entry component result) }
    ensures value { result.now ≡ component_in components.old component }
{
    match component {
        0 => &mut components.set,
        1 => &mut components.generator,
        _ => &mut components.storage,
    }
}

// Whether a component answers that its readings are out of range.
fn is_out_of_range(answer: Result<Component, Refusal>) -> bool
    ensures { result ≡ eqb (met answer) 3 }
{
    matches!(answer, Err(Refusal::OutOfRange))
}

// A test with its single fields in range. The component answers first, since only it goes through the readings: what it finds out of
// range comes before the stage, and the rest of its answer last.
#[tactic(auto, using(crate::proofs::Trials::readings_in_range), unfolding(power::specs::Power::test_of, crate::specs::Units::test_rest, crate::specs::Units::tested_unit))]
pub(crate) fn tested(
    stage: Stage,
    mut unit: Unit,
    component: u32,
    trial: Trial,
    readings: &[u8],
) -> Result<Unit, Refusal>
    requires { component ≤ greatest_component }
    ensures { decided result ≡ decided_by (pick (test_in_range trial.ending trial.tc trial.count readings.now) (staged Gathering stage (test_rest unit.enrolment component trial.ending trial.tc trial.count readings.now)) 3) (tested_unit unit component trial.ending trial.tc trial.count readings.now) }
{
    let cap = unit.enrolment.and_then(|entry| entry.cap);
    let place = component_mut(&mut unit.components, component);
    let answer = plant::test(*place, cap, trial, readings);
    if is_out_of_range(answer) {
        return Err(Refusal::OutOfRange);
    }
    check_stage(stage, Stage::Gathering)?;
    let entry = unit.enrolment.ok_or(Refusal::NotEnrolled)?;
    if !has_test(entry.plant.kind, component) {
        return Err(Refusal::ForeignComponent);
    }
    *place = answer?;
    Ok(unit)
}

// An availability of a unit. It asks for enrolment and component as a test does: one function of both would state a clause of its closure.
#[tactic(auto, unfolding(plant::specs::Availability::availability_of, crate::specs::Units::availability_rest, crate::specs::Units::available_unit))]
pub(crate) fn available(mut unit: Unit, component: u32, minutes: Minutes) -> Result<Unit, Refusal>
    requires { component ≤ greatest_component }
    ensures { decided result ≡ decided_by (availability_rest unit.enrolment component minutes.hd minutes.hmp minutes.hif minutes.hed) (available_unit unit component minutes.hd minutes.hmp minutes.hif minutes.hed) }
{
    let entry = unit.enrolment.ok_or(Refusal::NotEnrolled)?;
    if !has_availability(entry.plant.kind, component) {
        return Err(Refusal::ForeignComponent);
    }
    let place = component_mut(&mut unit.components, component);
    *place = plant::set_availability(*place, minutes)?;
    Ok(unit)
}
