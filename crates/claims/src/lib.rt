// What is claimed, and that it holds. Statements in specs/, theorems in proofs/.

#![tactic(auto)]
