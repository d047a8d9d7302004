// The calls of a session: opening, requests, and the entry points over a lent record.
#![tactic(auto)]

pub mod call;
pub mod entry_points;
pub mod open_call;
pub mod options;
mod request;
pub mod requests;
