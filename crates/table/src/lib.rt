// The table of the journal's records: the calls, their fields, marks and ranges.
#![tactic(auto)]

mod calls; // calls.rt: the calls by what they concern
mod columns; // columns.rt: the width and the range of each field
mod consumers; // consumers.rt: what is told of a consumer
mod contracts; // contracts.rt: what is done to a contract
mod forms; // forms.rt: the marks, the form of a record, a call's fields
mod lines; // lines.rt: the table, line by line
mod parts; // parts.rt: a call as its record has it
mod records; // records.rt: the record of a mark, the call of its bytes, the fields of a call
mod units; // units.rt: what is asked of a unit

pub use calls::Call;
pub use consumers::ConsumerCall;
pub use contracts::ContractCall;
pub use forms::{ConsumerField, FIELDS, Fields, Form, Mark, Uses};
pub use records::{call_of, check_fields, fields_of, form_of, mark_at, readings_size};
pub use units::{Enrolling, UnitCall};
