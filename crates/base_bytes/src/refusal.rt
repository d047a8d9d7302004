// Refusals, and their numbers: document 01's causes, and from 18 on those of the change requests.
pub use spec_bytes::refusal::Refusal;
