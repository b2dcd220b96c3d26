// Statements and bodies, walked once: rows 6 to 8, and the code of what fits.

#![tactic(auto)]

pub mod arm_labels;
pub mod arms;
pub mod body;
pub mod simple;
pub mod walk;
