// Blocks: truth tables, and netlists that compute them.
#![tactic(auto)]

pub mod blocks;
pub mod table;
