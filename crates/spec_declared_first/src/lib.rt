#![tactic(auto)]

// Every tag and typedef name in the text is declared above its use: definitions in specs/, theorems in proofs/. No code but this stands
// here.
