// What both machines calculate with: values and faults as words, the store's cells, and the operators.

#![tactic(auto)]

pub mod cells;
pub mod operators;
pub mod words;
