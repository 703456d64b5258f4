// Level Year: the close. Adjusted demand, charges and credits.
#![tactic(auto)]

mod adjusted; // adjusted.rt: adjusted demand, and number 14
mod closing; // closing.rt: the close
mod money; // money.rt: positive adjustments, charges and credits

pub use adjusted::{real_demand, real_demands, total_declared};
pub use closing::{check_close, close, put_closed, settle_close};
