// One device's part of a ticket, its plan and its total, and the call on bytes as a function: definitions and proofs in specs/, and no code.
// Rests on `ticket` and `temporal`. Start at specs/Lib.antt.

#![tactic(auto)]
