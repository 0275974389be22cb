// Why a ticket is impossible, in words: the text of a ring of rules, and the call that prints it, as definitions, with their theorems, in specs/; and no code.
// Rests on `rings` for the ring, on `names` for the lists of names, on `text` for numbers and lines, and on `ticket` for the bytes. Start at specs/Lib.antt.

#![tactic(auto)]
