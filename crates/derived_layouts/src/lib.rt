// What derived stage checks record serves them again where it is provided: the theorem stands in proofs/Theorem.antt, its words in specs/Theorem.antt.
#![tactic(auto)]
