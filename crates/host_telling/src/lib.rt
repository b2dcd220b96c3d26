// The reports of runs as rows, written into lent bytes.

#![tactic(auto)]

pub mod markings;
pub mod reports;
