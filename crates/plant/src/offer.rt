// The firm offer of the eight kinds of plant: functions over a plant, its hours and its components, by the names that specs/Offer.antt has. All are in
// watts but the last, which finishes the offer.
ghost use Rattle.std.specs.Prelude.{◌≡◌};
ghost use Rattle.plant.specs.Offer.{thermal, renewable, limited, regulated, stored, complete, together, with_storage, offer_in_watts, firm_offer};

use crate::availability::{available_power, is_held, times_c};
use power::{
    Component, Components, Hours, Kw, Kwh, Watts, capped_by_energy, capped_by_kilowatts, least,
    maximum_power, whole_kilowatts,
};

// A plant: its kind, whether it holds a supply report, guaranteed power, firm energies and storable energy. The kind is a number: firm_offer
// takes any, and offers 0 where it is none of the eight.
#[derive(Clone, Copy, Debug, PartialEq, Eq)]
pub struct Plant {
    pub kind: u32,
    pub report: bool,
    pub ppr: Kw,
    pub e1: Kwh,
    pub e2: Kwh,
    pub cap: Kwh,
}

// Kind 1.
fn thermal(plant: Plant, x: Component) -> Watts
    ensures { result ≡ thermal plant x }
{
    if plant.report {
        available_power(x)
    } else {
        Watts(0)
    }
}

// Kind 2.
fn renewable(plant: Plant, x: Component) -> Watts
    ensures { result ≡ renewable plant x }
{
    if plant.report {
        let guaranteed = capped_by_kilowatts(maximum_power(x), plant.ppr);
        times_c(guaranteed, x.availability)
    } else {
        Watts(0)
    }
}

// Kinds 3, 4, 6 and 7, and the generator of kind 8.
fn limited(plant: Plant, hours: u32, x: Component) -> Watts
    ensures { result ≡ limited plant hours x }
{
    capped_by_energy(available_power(x), plant.e1, hours)
}

// Kind 5.
fn regulated(plant: Plant, hours: u32, x: Component) -> Watts
    ensures { result ≡ regulated plant hours x }
{
    capped_by_energy(least(available_power(x), maximum_power(x)), plant.e1, hours)
}

// The storage of kind 8.
fn stored(plant: Plant, hours: u32, x: Component) -> Watts
    ensures { result ≡ stored plant hours x }
{
    let delivered = capped_by_energy(available_power(x), plant.e2, hours);
    capped_by_energy(delivered, plant.cap, hours)
}

// Nothing that kind 8 needs is missing.
fn is_complete(components: Components) -> bool
    ensures { result ≡ complete components.set components.generator components.storage }
{
    components.set.result.is_some()
        && components.generator.result.is_some()
        && components.storage.result.is_some()
        && is_held(components.generator.availability)
        && is_held(components.storage.availability)
}

// At most so much of two powers together. A sum beyond 32 bits is above any power.
fn together(most: Watts, a: Watts, b: Watts) -> Watts
    ensures { result ≡ together most a b }
{
    Watts(a.0.saturating_add(b.0).min(most.0))
}

// Kind 8.
fn with_storage(plant: Plant, hours: u32, components: Components) -> Watts
    ensures { result ≡ with_storage plant hours components.set components.generator components.storage }
{
    if is_complete(components) {
        together(
            maximum_power(components.set),
            stored(plant, hours, components.storage),
            limited(plant, hours, components.generator),
        )
    } else {
        Watts(0)
    }
}

// The row of a plant's kind in watts, with its three components, of which all but kind 8 have the set alone.
#[tactic(auto, unfolding(crate::specs::Offer::offer_in_watts))]
fn offer_in_watts(plant: Plant, hours: Hours, components: Components) -> Watts
    ensures { result ≡ offer_in_watts plant hours components.set components.generator components.storage }
{
    match plant.kind {
        1 => thermal(plant, components.set),
        2 => renewable(plant, components.set),
        3 | 7 => limited(plant, hours.nhrm, components.set),
        4 | 6 => limited(plant, hours.ndhmd, components.set),
        5 => regulated(plant, hours.nhmd, components.set),
        8 => with_storage(plant, hours.ndhmd, components),
        _ => Watts(0),
    }
}

// The firm offer of a plant with its three components: the row of its kind, finished.
#[tactic(auto, unfolding(crate::specs::Offer::firm_offer))]
pub fn firm_offer(plant: Plant, hours: Hours, components: Components) -> Kw
    ensures { result ≡ firm_offer plant hours components.set components.generator components.storage }
{
    whole_kilowatts(offer_in_watts(plant, hours, components))
}
