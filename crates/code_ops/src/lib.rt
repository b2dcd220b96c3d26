// What the nodes of laid code are, by name (code: Layout, Readback): the checker writes these numbers, the engine's pass reads them.
// Each stands first in its node; the comment says what stands after it.

#![tactic(auto)]

pub mod expr;
pub mod place;
pub mod stmt;
