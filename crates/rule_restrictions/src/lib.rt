// The rules of row 8 beside kinds, for a body whose form and names have been found: constants, labels, control variables, counts of arguments.

#![tactic(auto)]

pub mod arm_parts;
pub mod body;
pub mod calls;
pub mod control;
pub mod walk;
