// What a person asks of a block, by a few words, and the text that answers it.
#![tactic(auto)]

pub mod answering;
pub mod inspecting;
pub mod words;
