// Whether lists of cells are lawful: drawn ones, damaged ones and long ones.
use anyhow::Context;
use draw::cells::kind_at;
use draw::page::Page;
use netlist::cell::{Cell, Kind};
use netlist::cell_list::CellList;
use std::fmt::Write;

// How the vectors say whether cells are lawful.
fn yes_or_no(inputs: u8, cells: &[Cell]) -> &'static str {
    if CellList::check(usize::from(inputs), cells) {
        "yes"
    } else {
        "no"
    }
}

// Writes whether a copy of the cells with one of them damaged, from what it was and its wire, is lawful.
fn write_damaged<D: FnOnce(Cell, u16) -> Cell>(
    page: &mut Page,
    inputs: u8,
    cells: &[Cell],
    label: &str,
    damage: D,
) -> anyhow::Result<()>
    requires { D.IsAlwaysCallable damage }
{
    let index = page.numbers.below(cells.len());
    let mut damaged = cells.to_vec(*page.text.allocator())?;
    let cell = damaged.get_mut(index).context("no cell to damage")?;
    *cell = damage(*cell, u16::try_from(2 * usize::from(inputs) + index)?);
    let lawful = yes_or_no(inputs, &damaged);
    writeln!(page.text, "damaged {label} lawful {lawful}")?;
    Ok(())
}

// Writes whether damaged copies of the cells are lawful, each with one damage. Some are lawful all the same.
fn write_all_damaged(page: &mut Page, inputs: u8, cells: &[Cell]) -> anyhow::Result<()> {
    write_damaged(
        page,
        inputs,
        cells,
        "own-wire",
        |cell, wire| Cell { a: wire, ..cell },
    )?;
    write_damaged(
        page,
        inputs,
        cells,
        "unused-d",
        |cell, _| Cell {
            d: u16::from(cell.d == 0),
            ..cell
        },
    )?;
    write_damaged(
        page,
        inputs,
        cells,
        "wide-table",
        |cell, _| Cell {
            table: u16::MAX,
            ..cell
        },
    )?;
    write_damaged(
        page,
        inputs,
        cells,
        "kind",
        |cell, _| Cell {
            kind: kind_at(usize::from(u8::from(cell.kind)) + 1),
            ..cell
        },
    )
}

// Writes whether the cells are lawful, with their own number of inputs, with wrong ones, and damaged.
pub fn write_lawfulness(page: &mut Page, inputs: u8, cells: &[Cell]) -> anyhow::Result<()> {
    writeln!(page.text, "lawful {}", yes_or_no(inputs, cells))?;
    for wrong in [0, 9] {
        let lawful = yes_or_no(wrong, cells);
        writeln!(page.text, "damaged inputs-{wrong} lawful {lawful}")?;
    }
    if cells.is_empty() {
        return Ok(());
    }
    write_all_damaged(page, inputs, cells)
}

// Writes whether lists of masks about as long as the most wires are lawful.
pub fn write_long_lists(page: &mut Page) -> anyhow::Result<()> {
    let lists = [
        ("masks", 1, 4094),
        ("masks", 1, 4095),
        ("masks", 1, 4096),
        ("wide", 8, 4080),
        ("wide", 8, 4081),
    ];
    for (label, inputs, count) in lists {
        let cells = vec![in *page.text.allocator(); Cell::gate(Kind::Mask, 0, 0); count]?;
        let lawful = yes_or_no(inputs, &cells);
        writeln!(page.text, "{label} {count} lawful {lawful}")?;
    }
    Ok(())
}
