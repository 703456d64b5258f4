// Availability from an outage log: HD, HMP and HIF as the minutes of its window, and HED, which is given with it.
#![tactic(auto)]

mod entries; // entries.rt: the order of the entries, and their minutes within the window
mod figures; // figures.rt: the four figures of a log, as a value and in a buffer
mod log; // log.rt: the window and the entries of a log, and their ranges
mod promises; // promises.rt: theorems about the figures

pub use figures::{minutes_of_log, write_minutes};
pub use promises::outages_count;
