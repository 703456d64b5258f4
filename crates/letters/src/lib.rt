// The lines of the letters U, P, D and S ("Journal in, listing out").
// For our own crates and not for buyers, as `text` is.
#![tactic(auto)]

mod consumers; // consumers.rt: the lines D and S
mod producers; // producers.rt: the lines P
mod room; // room.rt: the most bytes of a listing, and of its parts
mod units; // units.rt: the lines U, and whose units they are

pub use consumers::{push_demand_lines, push_settlement_lines};
pub use producers::push_producer_lines;
pub use room::{LONGEST, LONGEST_CLOSED, LONGEST_FIRM};
pub use units::push_unit_lines;
