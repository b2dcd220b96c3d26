// Whether the names with which parts begin differ (row 7): by their keys, block by block.

#![tactic(auto)]

pub mod blocks;
pub mod keys;
pub mod leads;
