// The stages of the one pass over a line: rows 6 to 8 at once (specs/Stages), and that they judge as the rows in their order do (proofs/).

#![tactic(auto)]
