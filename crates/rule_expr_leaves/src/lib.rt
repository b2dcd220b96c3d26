// The leaves of the walk over expressions: words, `first` and `last`, a name or number that stands last, the members of a set.

#![tactic(auto)]

pub mod fields;
pub mod links;
pub mod words;
