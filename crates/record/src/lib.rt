// The journal's records: the reader and the writer. It shows the calls of the table too.
#![tactic(auto)]

mod fields; // fields.rt: fields written
mod promises; // promises.rt: theorems on both
mod reading; // reading.rt: the reader
mod writing; // writing.rt: the writer, and the bytes of a record

pub use promises::{
    meets_as_before, read_is_alone, read_is_placed, read_is_written, reads_as_before,
    written_is_read,
};
pub use ranges::check_call;
pub use reading::{Read, read_at, readings_of, stop_number};
pub use table::{Call, ConsumerCall, ContractCall, Enrolling, UnitCall};
pub use writing::{record_size, write};
