// The rules of a ticket, written and unwritten, walks along them, and shortest paths: definitions and laws in specs/, and no code.
// Rests on `temporal` and `ticket`. Start at specs/Lib.antt.

#![tactic(auto)]
