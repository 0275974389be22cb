// What the calls on bytes mean, what is claimed of a run, and the theorem: definitions and proofs in specs/, and no code.
// Rests on `temporal` and `ticket`. Start at specs/Lib.antt.

#![tactic(auto)]
