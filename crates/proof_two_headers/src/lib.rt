#![tactic(auto)]

// Two headers over one ledger: definitions in specs/, theorems in proofs/. No code but this stands here.
