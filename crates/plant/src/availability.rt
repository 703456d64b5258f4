// The minutes of an availability, and power times c.
ghost use Rattle.std.specs.Prelude.{◌≡◌, ◌+◌, ◌*◌, ◌/◌, ◌≤◌, ◌<◌};
ghost use Rattle.quantities.specs.Limits.{greatest_minutes};
ghost use Rattle.quantities.specs.Refusals.{met};
ghost use Rattle.power.specs.Quantity.{watts};
ghost use Rattle.power.specs.Power.{answered};
ghost use Rattle.plant.specs.Availability.{ready_minutes, whole_minutes, minutes_fit, availability_number, availability_of, held, times_c};
ghost use Rattle.plant.specs.Offer.{available_power};

use power::{Component, Minutes, Watts, maximum_power, minutes_in_range};
use quantities::{GREATEST_MINUTES, Refusal};

// The minutes have a coefficient: not none or too many in all, and no more degraded than there are.
fn minutes_fit(m: Minutes) -> bool
    ensures { result ≡ minutes_fit m }
{
    let whole = u64::from(m.hd) + u64::from(m.hif) + u64::from(m.hmp);
    whole != 0
        && whole <= u64::from(GREATEST_MINUTES)
        && u64::from(m.hed) <= u64::from(m.hd) + u64::from(m.hmp)
}

// What refuses an availability: a figure out of range, then minutes that have no coefficient.
fn check_minutes(m: Minutes) -> Result<(), Refusal>
    ensures { met result ≡ availability_number m }
{
    if !minutes_in_range(m) {
        return Err(Refusal::OutOfRange);
    }
    if !minutes_fit(m) {
        return Err(Refusal::ImpossibleMinutes);
    }
    Ok(())
}

// An availability of a component.
#[tactic(auto, unfolding(crate::specs::Availability::availability_of))]
pub fn set_availability(old: Component, m: Minutes) -> Result<Component, Refusal>
    ensures { answered old result ≡ availability_of old m }
{
    check_minutes(m)?;
    Ok(Component {
        availability: Some(m),
        ..old
    })
}

// An availability is held.
pub(crate) fn is_held(availability: Option<Minutes>) -> bool
    ensures { result ≡ held availability }
{
    availability.is_some_and(|m| check_minutes(m).is_ok())
}

// Power times the coefficient of minutes that fit: one product, one division, in watts.
fn times_minutes(power: Watts, m: Minutes) -> Watts
    requires { (0 < whole_minutes m) × (whole_minutes m ≤ greatest_minutes) × (m.hed ≤ m.hd + m.hmp) }
    ensures { result ≡ watts (power.0 * ready_minutes m / whole_minutes m) }
{
    let ready = u64::from(m.hd + m.hmp - m.hed);
    let whole = u64::from(m.hd + m.hif + m.hmp);
    Watts((u64::from(power.0) * ready / whole) as u32)
}

// Power times c, 0 without an availability. A match with a guard: minutes that do not fit have no c either.
#[tactic(auto, unfolding(crate::specs::Availability::times_c))]
pub(crate) fn times_c(power: Watts, availability: Option<Minutes>) -> Watts
    ensures { result ≡ times_c power availability }
{
    match availability {
        Some(m) if check_minutes(m).is_ok() => times_minutes(power, m),
        _ => Watts(0),
    }
}

// The maximum power of a component times its c.
pub(crate) fn available_power(x: Component) -> Watts
    ensures { result ≡ available_power x }
{
    times_c(maximum_power(x), x.availability)
}
