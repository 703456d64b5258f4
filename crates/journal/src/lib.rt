// The run over a journal of any bytes and any length ("Journal records").
#![tactic(auto)]

mod ledger; // ledger.rt: the book of a run, and the figures beside it from which a close's number is found
mod outcome; // outcome.rt: what the run returns, and what it counts
mod running; // running.rt: the run

pub use outcome::{Refused, Run};
pub use running::run;
