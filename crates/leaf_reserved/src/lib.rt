// The reserved words and operators of document 01, "The text".

#![tactic(auto)]

mod slots;
pub mod table;
