// No code: the demands of the racks as theorems over the definitions that the contracts cite (proofs/Demands.antt).
#![tactic(auto)]
