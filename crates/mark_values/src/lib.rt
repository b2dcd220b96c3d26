// Values and places with their types, as the marking machine carries them, and what is done to them in one step.

#![tactic(auto)]

pub mod arguments;
pub mod constants;
pub mod members;
pub mod places;
pub mod values;
