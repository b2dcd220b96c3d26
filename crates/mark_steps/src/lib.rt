// The marking machine's small parts: how a statement ends, the values of a loop.

#![tactic(auto)]

pub mod ends;
pub mod turns;
