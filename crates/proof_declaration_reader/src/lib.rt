// What reading a declaration back comes to: the written text reads back, and the bound on open calls loses nothing. Definitions in specs/,
// theorems in proofs/. No code but this stands here.

#![tactic(auto)]
