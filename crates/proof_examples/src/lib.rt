#![tactic(auto)]

// examples
