// Expressions and targets, walked once: rows 6 to 8, and the code of what fits.

#![tactic(auto)]

pub mod walk;
pub mod words;
