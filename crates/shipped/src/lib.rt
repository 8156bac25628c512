// What a host keeps: the ranges of a record, and demand 3 of the exported function: the claims in specs/, their proofs in proofs/.
#![tactic(auto)]
