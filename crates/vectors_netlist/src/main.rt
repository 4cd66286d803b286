// Vectors for netlists: drawn netlists with the answers to their queries, queries that are refused, and damaged lists of cells.
#![tactic(auto)]

use anyhow::Context;
use draw::page::Page;
use netlist::cell_list::CellList;
use netlist::netlist::Netlist;
use std::fmt::Write;
use traverse::walk::masks;

mod answers;
mod buffer;
mod lawfulness;
mod refusals;

const SEED: u64 = 1;

const NETLISTS: usize = 320;

// Draws netlist number `index`, of which each sixteenth is long, and writes all about it.
fn write_netlist(page: &mut Page, index: usize) -> anyhow::Result<()> {
    let heap = *page.text.allocator();
    let inputs = 1 + page.numbers.below(8) as u8;
    let count = if index % 16 == 15 {
        200 + page.numbers.below(401)
    } else {
        page.numbers.below(41)
    };
    let cells = page
        .numbers
        .draw_cells(heap, 2 * usize::from(inputs), count)?;
    let net = CellList::try_new(usize::from(inputs), &cells).context(
        "the drawn cells are not lawful",
    )?;
    let wires = net.wires();
    let fresh = masks(&net);
    writeln!(
        page.text,
        "netlist {index} inputs {inputs} wires {wires} masks {fresh}"
    )?;
    let given = answers::write_answers(page, &net)?;
    refusals::write_refusals(page, net, &given)?;
    lawfulness::write_lawfulness(page, inputs, &cells)
}

// Prints the vectors, netlist by netlist.
fn run(rt: &HostRuntime) -> anyhow::Result<()> {
    let mut page = Page::new(rt.alloc(), SEED);
    for index in 0..NETLISTS {
        write_netlist(&mut page, index)?;
        page.print(rt)?;
    }
    lawfulness::write_long_lists(&mut page)?;
    page.print(rt)?;
    Ok(())
}

// Prints the vectors; an error is printed to standard error, and ends the program with status 1.
fn main(rt: HostRuntime) -> anyhow::Result<()> {
    run(&rt)
}
