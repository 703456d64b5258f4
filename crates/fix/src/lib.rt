// Level Year: the fix. Offers, what each producer may commit, and firm demand.
#![tactic(auto)]

mod demands; // demands.rt: what the consumers declared, and firm demand
mod division; // division.rt: a division among all consumers
mod fixing; // fixing.rt: the fix
mod offers; // offers.rt: the offers of all units, and what each producer may commit

pub use demands::{declared, weights};
pub use division::among_consumers;
pub use fixing::{check_fix, fix, settle_fix};
