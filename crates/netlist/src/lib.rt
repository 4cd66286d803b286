// Netlists: cells, and what answers as a netlist.
#![tactic(auto)]

pub mod cell;
pub mod cell_list;
pub mod netlist;
