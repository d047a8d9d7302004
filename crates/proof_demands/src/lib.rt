// proof_demands

#![tactic(auto)]
