// What a ring of rules is, which one is printed, and that a ticket has one exactly where it has no schedule: definitions and proofs in specs/, and no code.
// Rests on `temporal` and `paths`. Start at specs/Lib.antt.

#![tactic(auto)]
