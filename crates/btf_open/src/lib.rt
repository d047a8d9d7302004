// Opening: the nine causes in their order, and then the work.
#![tactic(auto)]

pub mod causes;
pub mod opening;
