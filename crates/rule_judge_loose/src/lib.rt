// The judge of lines for the marking machine: rows 4 to 9 with the kinds of bodies left out, and the bodies' table.

#![tactic(auto)]

pub mod bodied;
pub mod checking;
pub mod easing;
pub mod lined;
