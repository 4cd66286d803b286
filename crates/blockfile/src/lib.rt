// Block files: checking, viewing and writing them.
#![tactic(auto)]

pub mod checking;
pub mod examples;
mod fields;
pub mod file_view;
mod part;
mod puts;
pub mod writing;
