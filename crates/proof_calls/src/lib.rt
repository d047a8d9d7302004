// proof_calls

#![tactic(auto)]
