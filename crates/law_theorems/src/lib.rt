// Theorems on the definitions of `law`: the demands hold (proofs/Demand3), and the invariants by which they do (specs/).

#![tactic(auto)]
