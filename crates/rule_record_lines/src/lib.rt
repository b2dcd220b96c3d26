// `type` lines that make a record.

#![tactic(auto)]

pub mod records;
