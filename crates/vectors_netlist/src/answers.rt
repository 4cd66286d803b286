// The answers to queries that are not refused.
use crate::buffer::{BYTE_FILLER, COUNT_FILLER, EXTRA, is_kept_from, kept_or_changed};
use anyhow::Context;
use draw::page::Page;
use fault::NetlistFault;
use lines::numbers::{bits, places, spaced};
use netlist::cell_list::CellList;
use netlist::netlist::Netlist;
use query::counting::count;
use query::probing::probe;
use query::settling::settle;
use std::alloc::Global;
use std::fmt::Write;
use traverse::walk::masks;

// What a query writes for each wire, and whether it keeps the memory past them.
fn ask<T, Q>(
    heap: Global,
    net: &CellList<'_>,
    filler: T,
    query: Q,
) -> anyhow::Result<(Vec<T>, bool)>
where
    T: Clone + Copy + PartialEq,
    Q: FnOnce(&mut [T]) -> Result<(), NetlistFault>,
    requires { Q.IsAlwaysCallable query }
{
    let wires = net.wires();
    let mut buffer = vec![in heap; filler; wires + EXTRA]?;
    query(&mut buffer).context("a query was refused")?;
    let kept = is_kept_from(&buffer, wires, &filler);
    buffer.truncate(wires);
    Ok((buffer, kept))
}

// Writes what every wire settles to, and returns whether the memory past the wires was kept.
fn write_settling(page: &mut Page, net: &CellList<'_>, given: &[u8]) -> anyhow::Result<bool> {
    let heap = *page.text.allocator();
    let (values, kept) = ask(heap, net, BYTE_FILLER, |out| settle(net, given, out))?;
    let settled = bits(heap, &values)?;
    writeln!(page.text, "settled {settled}")?;
    Ok(kept)
}

// Writes the wires that a probe sees, and returns whether the memory past the wires was kept.
fn write_probe(page: &mut Page, net: &CellList<'_>, wire: usize) -> anyhow::Result<bool> {
    let heap = *page.text.allocator();
    let (marks, kept) = ask(heap, net, BYTE_FILLER, |out| probe(net, wire, out))?;
    let seen = spaced(heap, &places(heap, &marks)?)?;
    writeln!(page.text, "probe {wire} sees {seen}")?;
    Ok(kept)
}

// Writes the register count of every wire, and returns whether the memory past the wires was kept.
fn write_counts(page: &mut Page, net: &CellList<'_>) -> anyhow::Result<bool> {
    let heap = *page.text.allocator();
    let (registers, kept) = ask(heap, net, COUNT_FILLER, |out| count(net, out))?;
    let counts = spaced(heap, &registers)?;
    writeln!(page.text, "counts {counts}")?;
    Ok(kept)
}

// Writes two settlings, two probes and the counts, and whether the memory past them was kept. Returns the bytes that were given to the second settling.
pub fn write_answers(page: &mut Page, net: &CellList<'_>) -> anyhow::Result<Vec<u8>> {
    let heap = *page.text.allocator();
    let needed = 2 * net.inputs() + masks(net);
    let first = page.numbers.draw_bits(heap, needed)?;
    let mut kept = write_settling(page, net, &first)?;
    let second = page.numbers.draw_bits(heap, needed)?;
    kept &= write_settling(page, net, &second)?;
    for _ in 0..2 {
        let wire = page.numbers.below(net.wires());
        kept &= write_probe(page, net, wire)?;
    }
    kept &= write_counts(page, net)?;
    writeln!(page.text, "rest {}", kept_or_changed(kept))?;
    Ok(second)
}
