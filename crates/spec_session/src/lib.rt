// What each call on a session comes to: definitions and laws.
#![tactic(auto)]

pub mod session;
