// The nodes that have parts, from the answers for these: operators and functions, elements and fields.

#![tactic(auto)]

pub mod operators;
pub mod targets;
