// What a device sees of a record, the call that shows it, and the theorem of two records: definitions and proofs in specs/, and no code.
// Rests on `temporal`, `ticket` and `runs`. Start at specs/Lib.antt.

#![tactic(auto)]
