// The leaves of the walk over statements: the code of a node from the answers for its parts, and the parts of a body.

#![tactic(auto)]

pub mod base;
pub mod calls;
pub mod last;
pub mod nodes;
