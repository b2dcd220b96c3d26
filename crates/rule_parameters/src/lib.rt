// The parameters of a `proc` line: rows 6 to 8 of their list, their frame in the working list, and the scope of the body.

#![tactic(auto)]

pub mod framing;
pub mod listing;
