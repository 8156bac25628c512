// Demand 3 of document 01: the claim in specs/, its proof in proofs/.
#![tactic(auto)]
