// The rows of what `runscript` prints, written into lent bytes.

#![tactic(auto)]

pub mod putting;
pub mod rows;
