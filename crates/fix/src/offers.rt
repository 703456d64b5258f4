// The firm and efficient offers of all units, and what each producer may commit (2.1, 2.2).
ghost use Rattle.std.specs.Prelude.{◌≡◌, ◌^◌, ◌<◌, eqb};
ghost use Rattle.basis.specs.Choice.{pick};
ghost use Rattle.basis.specs.Sums.{sum};
ghost use Rattle.basis.specs.Tables.{tab};
ghost use Rattle.quantities.specs.Limits.{units as unit_count};
ghost use Rattle.fix.specs.Fix.{offer_by, offers_of, flags_of, producer_by, added_at, limit_of, limits_of, efficient_in};

use plant::{efficient_offers, firm_offer};
use power::Hours;
use quantities::{GREATEST_POWER, PRODUCERS, UNITS};
use state::Unit;
use std::array;

// What all units offer at most, which no producer's units exceed.
const GREATEST_LIMIT: u64 = UNITS as u64 * GREATEST_POWER as u64;

// The firm offer of a unit, 0 if not enrolled.
fn offer(hours: Hours, unit: &Unit) -> u32
    ensures { result ≡ offer_by hours unit.now unit.now.enrolment }
{
    unit.enrolment.map_or(0, |entry| firm_offer(entry.plant, hours, unit.components).0)
}

// The firm offer of each unit. By places, here and below: a map of the array would take a copy of all units.
pub(crate) fn offers(hours: Hours, units: &[Unit; UNITS]) -> [u32; UNITS]
    ensures { result ≡ offers_of hours units.now }
{
    array::from_fn(|i| offer(hours, &units[i]))
}

// The flags of each unit, 0 if not enrolled.
fn flags(units: &[Unit; UNITS]) -> [u32; UNITS]
    ensures { result ≡ flags_of units.now }
{
    array::from_fn(|i| units[i].enrolment.map_or(0, |entry| entry.flags))
}

// The efficient offer of each unit.
#[tactic(auto, unfolding(crate::specs::Fix::efficient_in))]
pub(crate) fn efficient(units: &[Unit; UNITS], offers: &[u32; UNITS]) -> [u32; UNITS]
    ensures { result ≡ efficient_in units.now offers.now }
{
    efficient_offers(flags(units), *offers).offers
}

// What a unit adds to a producer's limit: its efficient offer, if it is the producer's.
fn added(unit: &Unit, producer: u32, efficient: u32) -> u32
    ensures { result ≡ pick (eqb (producer_by unit.now.enrolment) producer) efficient 0 }
{
    let owner = unit.enrolment.map_or(0, |entry| entry.producer);
    if owner == producer { efficient } else { 0 }
}

// What each unit adds to a producer's limit. Units and offers are two arrays, as the book keeps them.
fn additions(units: &[Unit; UNITS], efficient: &[u32; UNITS], producer: u32) -> [u64; UNITS]
    ensures each { result ≡ tab (added_at units.now efficient.now producer) unit_count }
    ensures fits { sum result < 2 ^ 64 }
{
    array::from_fn(|i| u64::from(added(&units[i], producer, efficient[i])))
}

// What a producer may commit: the efficient offers of its units.
fn limit(units: &[Unit; UNITS], efficient: &[u32; UNITS], producer: u32) -> u32
    ensures { result ≡ limit_of units.now efficient.now producer }
{
    let sum: u64 = additions(units, efficient, producer).iter().sum();
    sum.min(GREATEST_LIMIT) as u32
}

// What each producer may commit.
pub(crate) fn limits(units: &[Unit; UNITS], efficient: &[u32; UNITS]) -> [u32; PRODUCERS]
    ensures { result ≡ limits_of units.now efficient.now }
{
    array::from_fn(|i| limit(units, efficient, i as u32 + 1))
}
