// Vectors for block files: short strings, drawn blocks with their files and damaged copies, a few named files, and truth tables.
#![tactic(auto)]

use crate::drawing::{Drawn, File, draw_block};
use crate::verdict::verdict;
use blockfile::file_view::viewing::IDENTITY;
use draw::hash::fnv1a;
use draw::page::Page;
use netlist::cell::{Cell, Kind};
use std::alloc::{AllocError, Global};
use std::fmt::Write;

mod damage;
mod drawing;
mod short;
mod tables;
mod verdict;

const SEED: u64 = 2;

const BLOCKS: usize = 40;

fn write_block(page: &mut Page, index: usize, drawn: &Drawn) -> anyhow::Result<()> {
    let inputs = drawn.inputs;
    let outputs = drawn.outputs;
    let cells = drawn.cells;
    let len = drawn.file.bytes.len();
    let sum = fnv1a(&drawn.file.bytes);
    writeln!(
        page.text,
        "block {index} inputs {inputs} outputs {outputs} cells {cells} bytes {len} sum {sum}"
    )?;
    let told = verdict(*page.text.allocator(), &drawn.file.bytes)?;
    let same = format!(in *page.text.allocator(); "accepted sum {sum}")?;
    let line = if told == same {
        "file accepted"
    } else {
        told.as_str()
    };
    writeln!(page.text, "{line}")?;
    Ok(())
}

// A file of as many masks as are said, between the sizes and the table of the identity and its outputs.
fn masks_file(heap: Global, count: usize) -> Result<Vec<u8>, AllocError> {
    let (head, tail) = IDENTITY.split_at(10);
    let mut mask = File::new(heap);
    mask.push_cell(Cell::gate(Kind::Mask, 0, 0))?;
    let mut bytes = Vec::with_capacity(heap, 1 << 16)?;
    bytes.extend_from_slice(head)?;
    for _ in 0..count {
        bytes.extend_from_slice(&mask.bytes)?;
    }
    bytes.extend_from_slice(tail)?;
    Ok(bytes)
}

fn write_limit(page: &mut Page) -> anyhow::Result<()> {
    let heap = *page.text.allocator();
    let file = masks_file(heap, 4094)?;
    let len = file.len();
    let told = verdict(heap, &file)?;
    writeln!(page.text, "limit bytes {len} {told}")?;
    let more = verdict(heap, &masks_file(heap, 4095)?)?;
    writeln!(page.text, "limit one-more {more}")?;
    Ok(())
}

fn write_named(page: &mut Page) -> anyhow::Result<()> {
    let heap = *page.text.allocator();
    let identity = verdict(heap, &IDENTITY)?;
    writeln!(page.text, "identity {identity}")?;
    let mut entry = IDENTITY;
    entry[9] = 2;
    let refused = verdict(heap, &entry)?;
    writeln!(page.text, "identity-entry {refused}")?;
    let empty = verdict(heap, &[])?;
    writeln!(page.text, "empty {empty}")?;
    Ok(())
}

fn write_numbered(page: &mut Page, index: usize) -> anyhow::Result<()> {
    let drawn = draw_block(*page.text.allocator(), &mut page.numbers, index)?;
    write_block(page, index, &drawn)?;
    damage::write_damaged(page, &drawn.file)?;
    Ok(())
}

fn run(rt: &HostRuntime) -> anyhow::Result<()> {
    let mut page = Page::new(rt.alloc(), SEED);
    short::write_short(&mut page.text)?;
    page.print(rt)?;
    for index in 0..BLOCKS {
        write_numbered(&mut page, index)?;
        page.print(rt)?;
    }
    write_limit(&mut page)?;
    write_named(&mut page)?;
    tables::write_tables(&mut page)?;
    page.print(rt)?;
    Ok(())
}

fn main(rt: HostRuntime) -> anyhow::Result<()> {
    run(&rt)
}
