// Level Plant, its lower part: kW, watts and kWh, what is kept for a component, tests and the maximum power that they give.
#![tactic(auto)]

mod card; // card.rt: the card of least counts, and by it whether a test reached 80 %
mod component; // component.rt: what is kept for a component, and what a test, an availability and an offer are made of
mod power; // power.rt: tests and maximum power
mod quantity; // quantity.rt: kW, watts, kWh and the conversions between them
mod ranges; // ranges.rt: the ranges of a test and of an availability

pub use card::{card_decides, least_count};
pub use component::{
    Component, Components, Hours, Minutes, Trial, fresh_component, fresh_components,
};
pub use power::{maximum_power, test};
pub use quantity::{Kw, Kwh, Watts, capped_by_energy, capped_by_kilowatts, least, whole_kilowatts};
pub use ranges::{minutes_in_range, test_in_range};
