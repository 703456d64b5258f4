// Level Year: what the book of a year keeps, a fresh book, the stages, and the places of a unit and a consumer.
#![tactic(auto)]

mod blank; // blank.rt: a fresh book
mod kept; // kept.rt: what the book keeps
mod places; // places.rt: where a unit and a consumer stand
mod stages; // stages.rt: the stages by their numbers, and the stage that a call belongs to

pub use blank::fresh;
pub use kept::{Book, CELLS, CloseFigures, Consumer, Declaration, Entry, Figures, Stage, Unit};
pub use places::{consumer_place, place_among, unit_place};
pub use stages::{check_open, check_stage};
