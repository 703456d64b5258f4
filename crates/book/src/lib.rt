// Level Year: the book of a year, and a function for each call.
#![tactic(auto)]

mod begun; // begun.rt: the year
pub mod calls; // calls.rt: a function for each call, and one for any
mod settlement; // settlement.rt: what is decided of a call, settled in the book

pub use begun::{check_year, settle_year};
pub use calls::step;
pub use plant::{Hours, Minutes, Trial};
pub use quantities::Refusal;
pub use settlement::{settle_consumer, settle_contract, settle_contract_by, settle_unit};
pub use state::{Book, fresh};
pub use table::{Call, ConsumerCall, ContractCall, Enrolling, UnitCall};
