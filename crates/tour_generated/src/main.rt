// A tour of generated blocks: from a table to a file and back, settled and probed.
#![tactic(auto)]

use block::table::TruthTable;
use blockfile::file_view::viewing::view;
use blockfile::writing::write;
use fault::NetlistFault;
use ghpc::ghpc::Ghpc;
use ghpc::low_latency::GhpcLl;
use lines::answers::{probe_line, settle_line};
use lines::files::{check_line, rewritten_line};
use lines::saying::labelled;
use std::alloc::{AllocError, Global};
use worked::worked_blocks;

// More than the file of any GHPC block of two inputs and one output has.
const ROOM: usize = 512;

// The table of two-input AND.
fn and_table() -> Result<TruthTable, NetlistFault> {
    TruthTable::try_new(2, 1, &[0, 0, 0, 1])
}

// The low-latency block of a table, in numbers, or why there is none.
fn low_latency_text(heap: Global, table: TruthTable) -> Result<String, AllocError> {
    match GhpcLl::try_new(table) {
        Ok(block) => block.report().to_string(heap),
        Err(fault) => fault.to_string(heap),
    }
}

// What is read from a file is settled, probed and written back.
fn show_file(rt: &HostRuntime, file: &[u8]) -> anyhow::Result<()> {
    let heap = rt.alloc();
    rt.print(labelled(heap, "the file read again", check_line(heap, file)?)?)?;
    let block = view(file);
    let settled = settle_line(heap, &block, &[1, 0, 0, 1, 1])?;
    rt.print(labelled(heap, "its shares 1001 and mask 1 settle to", settled)?)?;
    let seen = probe_line(heap, &block, 35)?;
    rt.print(labelled(heap, "a probe on its wire 35 sees", seen)?)?;
    rt.print(labelled(heap, "bytes written back", rewritten_line(heap, file)?)?)?;
    Ok(())
}

// The file of a block, written, and shown.
fn show_written(rt: &HostRuntime, block: &Ghpc) -> anyhow::Result<()> {
    let heap = rt.alloc();
    let mut file = vec![in heap; 0u8; ROOM]?;
    let length = write(block, &mut file)?;
    file.truncate(length);
    rt.print(labelled(heap, "bytes of its file", length)?)?;
    show_file(rt, &file)
}

fn run(rt: &HostRuntime) -> anyhow::Result<()> {
    let heap = rt.alloc();
    let table = and_table()?;
    let block = Ghpc::new(table);
    rt.print(labelled(heap, "GHPC of the table 0 0 0 1", block.report())?)?;
    show_written(rt, &block)?;
    let low_latency = low_latency_text(heap, table)?;
    rt.print(labelled(heap, "GHPC_LL of the table 0 0 0 1", low_latency)?)?;
    rt.print(labelled(heap, "claims on blocks worked out by hand", worked_blocks())?)?;
    Ok(())
}

fn main(rt: HostRuntime) -> anyhow::Result<()> {
    run(&rt)
}
