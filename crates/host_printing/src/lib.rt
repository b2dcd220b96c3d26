// What `runscript` and `markscript` print, written into lent bytes.

#![tactic(auto)]

pub mod answering;
pub mod machines;
pub mod markings;
pub mod reports;
pub mod serving;
