// The trader's desk: what the program says of a journal, a line for each record's reply, the run in words, the printed close, the journal for 64
// consumers, and what is found wrong with it.
#![tactic(auto)]

mod findings; // findings.rt: what is found wrong with a journal
mod narrowing; // narrowing.rt: the journal for 64 consumers
mod printing; // printing.rt: the printed close
mod replies; // replies.rt: the replies, line by line
mod summing; // summing.rt: the run in words

pub use findings::{LONGEST_FINDINGS, Told, told_listing};
pub use narrowing::{narrow_findings, narrow_output};
pub use printing::told_page;
pub use replies::{LONGEST_REPLY, Rest, all_replies, next_reply};
pub use summing::told_run;
