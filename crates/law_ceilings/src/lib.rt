// Long scripts at the ceilings of document 01, computed from the definitions of `law`: see proofs/.

#![tactic(auto)]
