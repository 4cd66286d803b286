// What the queries answer, as one line. Each query has its own buffer and its own text: one function that takes both as closures would be longer than the three.
use crate::numbers::{bits, places, refusal, spaced};
use fault::Fault;
use netlist::netlist::Netlist;
use query::counting::count;
use query::probing::probe;
use query::settling::settle;
use std::alloc::{AllocError, Global};

// The settled bits.
pub fn settle_line<N: Netlist>(
    heap: Global,
    netlist: &N,
    given: &[u8],
) -> Result<String, AllocError> {
    let mut out = vec![in heap; 0u8; netlist.wires()]?;
    match settle(netlist, given, &mut out) {
        Ok(()) => bits(heap, &out),
        Err(fault) => refusal(heap, fault.report()),
    }
}

// The wires that a probe sees.
pub fn probe_line<N: Netlist>(
    heap: Global,
    netlist: &N,
    wire: usize,
) -> Result<String, AllocError> {
    let mut out = vec![in heap; 0u8; netlist.wires()]?;
    match probe(netlist, wire, &mut out) {
        Ok(()) => spaced(heap, &places(heap, &out)?),
        Err(fault) => refusal(heap, fault.report()),
    }
}

// The register counts.
pub fn counts_line<N: Netlist>(heap: Global, netlist: &N) -> Result<String, AllocError> {
    let mut out = vec![in heap; 0u16; netlist.wires()]?;
    match count(netlist, &mut out) {
        Ok(()) => spaced(heap, &out),
        Err(fault) => refusal(heap, fault.report()),
    }
}
