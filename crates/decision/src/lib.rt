// Level Year: what a call of a consumer or of a contract comes to, decided from the parts of the book that it concerns. Nothing is changed.
#![tactic(auto)]

mod consumers; // consumers.rt: calls of a consumer
mod contracts; // contracts.rt: calls of a contract

pub use consumers::consumer_answer;
pub use contracts::{Balance, contract_answer, contract_answer_by, producer_balance};
