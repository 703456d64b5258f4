// Level Year: what a call of a unit comes to, decided from what the book keeps of it. Nothing is changed.
#![tactic(auto)]

mod components; // components.rt: test and availability
mod enrolment; // enrolment.rt: what a unit is enrolled with
mod units; // units.rt: calls of a unit

pub use units::unit_answer;
