#![tactic(auto)]

// The layout of records as the Linux BTF documentation gives it: definitions (specs/) and theorems about them (proofs/, first
// proofs/Claims.antt) that the crates above read sections by.
