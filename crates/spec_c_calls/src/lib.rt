// What each call for C comes to, except those that are lent a list (`btfdump_c`): definitions in specs/, laws in proofs/. No code but this
// stands here.

#![tactic(auto)]
