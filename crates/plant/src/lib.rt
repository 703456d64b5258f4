// Level Plant: maximum power from test readings, availability and the firm offers.
#![tactic(auto)]

mod availability; // availability.rt: the minutes of an availability, and power times c
mod efficient; // efficient.rt: the efficient offers of all units
mod offer; // offer.rt: the firm offer of the eight kinds
mod promises; // promises.rt: theorems about powers and offers

pub use availability::set_availability;
pub use efficient::{Efficient, efficient_offers};
pub use offer::{Plant, firm_offer};
pub use power::{
    Component, Components, Hours, Kw, Kwh, Minutes, Trial, Watts, fresh_component,
    fresh_components, least_count, maximum_power, test,
};
pub use promises::{
    efficient_or_none, offer_at_most_maximum, ready_at_most_whole, test_within_cap,
    test_within_greatest,
};
