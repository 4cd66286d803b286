// The questions that every netlist answers: what its wires settle to, what a probe sees, how many registers lie before a wire.
#![tactic(auto)]

mod checks;
pub mod counting;
pub mod examples;
pub mod lanes;
pub mod probing;
pub mod settling;
