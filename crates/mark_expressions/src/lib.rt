// The marking machine on expressions and targets, walked over the text with the tables of the checker.

#![tactic(auto)]

pub mod tables;
pub mod walk;
pub mod words;
