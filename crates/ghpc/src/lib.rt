// Blocks from truth tables: what a construction is, and the block that it makes of a table.
#![tactic(auto)]

pub use constructions::{
    ghpc_accepted, ghpc_by_wire, ghpc_counts, ghpc_lawful, ghpc_recombines, ghpc_sees,
    ghpc_settles, low_latency_accepted, low_latency_by_wire, low_latency_counts,
    low_latency_lawful, low_latency_recombines, low_latency_sees, low_latency_settles,
};

mod construction;
mod gates;
pub mod generated;
pub mod ghpc;
pub mod low_latency;
