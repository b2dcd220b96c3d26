// Theorems alone: that an accepted text's laid bodies are what the engine's emitter asks for (proofs/Texts), and that its code runs as they do (proofs/Engine).

#![tactic(auto)]
