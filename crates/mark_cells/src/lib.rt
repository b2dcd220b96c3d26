// Storing into the marking machine's array of cells.

#![tactic(auto)]

pub mod cells;
