// Document 01 as definitions: what a reader must believe (specs/, in the order of docs/READING.md), tried on its cases (proofs/). There is no code.

#![tactic(auto)]
