// A line of a script: rows 4 to 9, and what is known after it.

#![tactic(auto)]

pub mod entering;
pub mod whole;
