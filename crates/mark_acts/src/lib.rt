// Statements of the marking machine that hold no other, and what the others work out before they run one: conditions, selectors, the bounds of a `for`, the arguments of a call.

#![tactic(auto)]

pub mod acts;
pub mod arguments;
pub mod bounds;
pub mod ends;
pub mod storing;
