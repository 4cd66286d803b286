// Text for a person: refusals, what queries answer, what a block consists of, and how a file is read and written.
#![tactic(auto)]

pub mod answers;
pub mod files;
pub mod listing;
pub mod numbers;
pub mod saying;
