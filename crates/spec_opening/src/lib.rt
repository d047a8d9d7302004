// What opening comes to: causes 1 to 9 and what success leaves, as definitions in specs/, with laws about them in proofs/. No code but
// this stands here.
#![tactic(auto)]
