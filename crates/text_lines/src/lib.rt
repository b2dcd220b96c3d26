// The lines of a text: where each begins, and the passes of rows 3 and 4 over their bytes.

#![tactic(auto)]

pub mod lines;
