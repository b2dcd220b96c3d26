// Scripts with their answers, computed from the definitions of `law`: see proofs/.

#![tactic(auto)]
