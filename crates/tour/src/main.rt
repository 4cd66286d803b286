// A short tour: a small netlist, from its cells to what its wires carry and what a probe sees; a table and a block's file.
#![tactic(auto)]

use crate::blocks::show_block;
use anyhow::Context;
use lines::answers::{counts_line, probe_line, settle_line};
use lines::saying::labelled;
use netlist::cell::{Cell, Kind};
use netlist::cell_list::CellList;
use netlist::netlist::Netlist;
use query::examples::worked_examples;
use traverse::walk::masks;

mod blocks;

// Share 0 is masked, goes through two registers, and meets share 1 there.
fn refresh() -> [Cell; 5] {
    [
        Cell::gate(Kind::Mask, 0, 0),
        Cell::gate(Kind::Xor, 0, 2),
        Cell::gate(Kind::Reg, 3, 0),
        Cell::gate(Kind::Reg, 4, 0),
        Cell::gate(Kind::And, 5, 1),
    ]
}

fn show_sizes(rt: &HostRuntime, netlist: &CellList) -> anyhow::Result<()> {
    let inputs = netlist.inputs();
    let wires = netlist.wires();
    let masks = masks(netlist);
    println!(rt; "netlist: {inputs} inputs, {wires} wires, {masks} masks")?;
    Ok(())
}

// A netlist: settled, probed and counted, and two queries that are refused.
fn show_netlist(rt: &HostRuntime, netlist: &CellList) -> anyhow::Result<()> {
    let heap = rt.alloc();
    show_sizes(rt, netlist)?;
    let settled = settle_line(heap, netlist, &[1, 0, 1])?;
    rt.print(labelled(heap, "shares 10 and mask 1 settle to", settled)?)?;
    let settled = settle_line(heap, netlist, &[1, 1, 0])?;
    rt.print(labelled(heap, "shares 11 and mask 0 settle to", settled)?)?;
    let seen = probe_line(heap, netlist, 3)?;
    rt.print(labelled(heap, "a probe on wire 3 sees", seen)?)?;
    let seen = probe_line(heap, netlist, 6)?;
    rt.print(labelled(heap, "a probe on wire 6 sees", seen)?)?;
    let counts = counts_line(heap, netlist)?;
    rt.print(labelled(heap, "registers before each wire", counts)?)?;
    rt.print(labelled(heap, "a probe on wire 7", probe_line(heap, netlist, 7)?)?)?;
    let refused = settle_line(heap, netlist, &[1, 0])?;
    rt.print(labelled(heap, "two bytes where three are due", refused)?)?;
    rt.print(labelled(heap, "netlists worked out by hand", worked_examples())?)?;
    Ok(())
}

fn run(rt: &HostRuntime) -> anyhow::Result<()> {
    let cells = refresh();
    let netlist = CellList::try_new(1, &cells).context("the cells are not lawful")?;
    show_netlist(rt, &netlist)?;
    show_block(rt)
}

fn main(rt: HostRuntime) -> anyhow::Result<()> {
    run(&rt)
}
