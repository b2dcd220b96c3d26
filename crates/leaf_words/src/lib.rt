// Words of document 01, "The text": a word's kind, and what a number spells.

#![tactic(auto)]

pub mod numbers;
pub mod words;
