// Level Share as C calls it (include/share.h).
#![tactic(auto)]

mod division; // division.rt: the division over buffers of bytes

pub use division::share_divide;
