// `type` lines that make an enumeration, and its names.

#![tactic(auto)]

pub mod enums;
pub mod values;
