// Demand 3 as one theorem: specs/ states it, proofs/ proves it. There is no code here.
#![tactic(auto)]
