// Windows on grids finer than a tick, and their rounding to whole ticks: definitions and proofs in specs/, and no code.
// Rests on `runs`, `ticket` and `temporal`, and on the sums of `network`. Start at specs/Lib.antt.

#![tactic(auto)]
