// The marking machine on statements and bodies, walked over the text with the tables of the checker.

#![tactic(auto)]

pub mod finding;
pub mod walk;
