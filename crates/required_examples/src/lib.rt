// The examples P1 to P11 of document 01: the list stands in specs/Examples.antt, and the one claim over it in proofs/Claim.antt.
#![tactic(auto)]
