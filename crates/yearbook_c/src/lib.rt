// Level Year as C calls it (include/yearbook.h). C has no Result: each function answers the number met, 0 where there is none.
#![tactic(auto)]

mod figures; // figures.rt: the figures of a journal's run
mod listed; // listed.rt: the listing of a journal
mod narrowed; // narrowed.rt: the journal for 64 consumers
mod printed; // printed.rt: the printed close of a journal

pub use figures::yearbook_run;
pub use listed::yearbook_list;
pub use narrowed::yearbook_narrow;
pub use printed::yearbook_page;
