// Bytes and names of document 01, "The text": a byte's class, letters and digits, the shape of a name, names compared.

#![tactic(auto)]

pub mod bytes;
pub mod names;
