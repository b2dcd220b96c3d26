// The text by offset: what stands there, and words; the flat pass of row 5 and the count of row 9.

#![tactic(auto)]

pub mod lines;
pub mod sight;
