// The part of the tour about tables and block files.
use block::table::TruthTable;
use blockfile::file_view::viewing::view;
use lines::answers::{probe_line, settle_line};
use lines::files::{check_line, rewritten_line};
use lines::saying::labelled;
use std::alloc::{AllocError, Global};

// One bit that passes through, and an XOR of both shares that nothing uses.
static IDLE_XOR: [u8; 31] = [
    1, 0, 2, 1, 1, 2, 0, 2, 0, 1, 3, 0, 11, 3, 0, 0, 0, 0, 0, 1, 0, 0, 0, 0, 4, 0, 4, 0, 0, 0, 1,
];

// What the table of two inputs with these entries has at 11, or why it is refused.
fn table_text(heap: Global, entries: &[u8]) -> Result<String, AllocError> {
    match TruthTable::try_new(2, 1, entries) {
        Ok(table) => format!(in heap; "{} at 11", u8::from(table.value(0, 3))),
        Err(fault) => fault.to_string(heap),
    }
}

// A table is made, and a block's file is read, settled, probed and written back.
pub fn show_block(rt: &HostRuntime) -> anyhow::Result<()> {
    let heap = rt.alloc();
    rt.print(labelled(heap, "the table 0 0 0 1", table_text(heap, &[0, 0, 0, 1])?)?)?;
    rt.print(labelled(heap, "the table 0 0 0 2", table_text(heap, &[0, 0, 0, 2])?)?)?;
    rt.print(labelled(heap, "a block file", check_line(heap, &IDLE_XOR)?)?)?;
    let block = view(&IDLE_XOR);
    let settled = settle_line(heap, &block, &[1, 0])?;
    rt.print(labelled(heap, "its shares 10 settle to", settled)?)?;
    let seen = probe_line(heap, &block, 2)?;
    rt.print(labelled(heap, "a probe on its wire 2 sees", seen)?)?;
    rt.print(labelled(heap, "bytes written back", rewritten_line(heap, &IDLE_XOR)?)?)?;
    let cut = check_line(heap, &IDLE_XOR[0..20])?;
    rt.print(labelled(heap, "its first 20 bytes", cut)?)?;
    Ok(())
}
