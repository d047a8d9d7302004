#![tactic(auto)]

// proof_names_apart
