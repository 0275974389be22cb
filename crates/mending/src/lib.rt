// Mending an impossible ticket: which rules are kept and which are dropped, the call on bytes, and what is claimed of them: definitions and proofs in specs/, and no
// code. Rests on `temporal`, `ticket` and `paths`. Start at specs/Lib.antt.

#![tactic(auto)]
