// The numbered replies and the calls in words.
// For our own crates and not for buyers, as `text` is.
#![tactic(auto)]

mod calls; // calls.rt: a call in words
mod numbers; // numbers.rt: the numbered replies in words: what each means, and when it is met

pub use calls::{LONGEST_CALL, call_text, push_call};
pub use numbers::{LONGEST_AT_PLACE, LONGEST_SAID, at_place, condition_line, said};
