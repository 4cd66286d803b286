// The one traversal of a netlist, for whatever its wires carry.
#![tactic(auto)]

pub mod walk;
