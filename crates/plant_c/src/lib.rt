// Level Plant as C calls it (include/plant.h).
#![tactic(auto)]

mod card; // card.rt: the card of least counts
mod log; // log.rt: the figures of an outage log

pub use card::plant_least_count;
pub use log::plant_outages;
