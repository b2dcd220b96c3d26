// What the leaves of the walk over expressions are made of: a node's code, constants, cells, links of a chain, a member's fault, and a form's closing bracket.

#![tactic(auto)]

pub mod bracket;
pub mod cells;
pub mod links;
pub mod members;
pub mod nodes;
