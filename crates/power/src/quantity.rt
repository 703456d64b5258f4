// Power in kW and in watts, and energy. Only the conversions below turn one into the other.
ghost use Rattle.std.specs.Prelude.{◌≡◌, ◌≤◌, ◌*◌};
ghost use Rattle.quantities.specs.Limits.{greatest_reading};
ghost use Rattle.power.specs.Quantity.{watts, in_watts, whole_kilowatts, quarters_of_hour, least, over_quarters, over_hours};

// A power in kilowatts, as records, finished offers, contracts and demands have it.
#[derive(Clone, Copy, Debug, PartialEq, Eq)]
pub struct Kw(pub u32);

// A power in watts, as tests give it. The greatest, 3,000,000,000, fits 32 bits.
#[derive(Clone, Copy, Debug, PartialEq, Eq, PartialOrd, Ord)]
pub struct Watts(pub u32);

// An energy in kilowatt-hours.
#[derive(Clone, Copy, Debug, PartialEq, Eq)]
pub struct Kwh(pub u32);

// Watts in a kilowatt.
const WATTS_OF_KILOWATT: u64 = 1000;

// Quarters in an hour.
const QUARTERS_OF_HOUR: u64 = 4;

// The lesser of two powers.
pub fn least(a: Watts, b: Watts) -> Watts
    ensures { result ≡ least a b }
{
    a.min(b)
}

// A power, capped by so many watts, which may be more than 32 bits hold.
fn capped_by(power: Watts, most: u64) -> Watts
    ensures { result ≡ least power (watts most) }
{
    Watts(u64::from(power.0).min(most) as u32)
}

// A power, capped by so many kilowatts.
pub fn capped_by_kilowatts(power: Watts, most: Kw) -> Watts
    ensures { result ≡ least power (in_watts most) }
{
    capped_by(power, WATTS_OF_KILOWATT * u64::from(most.0))
}

// A power, capped by that of an energy over so many hours, 0 over none.
pub fn capped_by_energy(power: Watts, energy: Kwh, hours: u32) -> Watts
    ensures { result ≡ least power (over_hours energy hours) }
{
    let watt_hours = WATTS_OF_KILOWATT * u64::from(energy.0);
    capped_by(power, watt_hours.checked_div(u64::from(hours)).unwrap_or(0))
}

// The power of an energy over an hour or more, counted in quarters; the energy is at most the greatest reading in each.
#[tactic(auto, using(crate::proofs::Quotients::over_quarters_at_most))]
pub(crate) fn over_quarters(energy: Kwh, quarters: u32) -> Watts
    requires { (quarters_of_hour ≤ quarters) × (energy.0 ≤ quarters * greatest_reading) }
    ensures { result ≡ over_quarters energy quarters }
{
    let quarter_watts = QUARTERS_OF_HOUR * WATTS_OF_KILOWATT * u64::from(energy.0);
    Watts((quarter_watts / u64::from(quarters)) as u32)
}

// A power in whole kilowatts, rounded down.
pub fn whole_kilowatts(power: Watts) -> Kw
    ensures { result ≡ whole_kilowatts power }
{
    Kw((u64::from(power.0) / WATTS_OF_KILOWATT) as u32)
}
