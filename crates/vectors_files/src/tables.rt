// Truth tables, lawful and not.
use crate::drawing::Table;
use block::table::TruthTable;
use draw::bytes::with_byte;
use draw::numbers::Numbers;
use draw::page::Page;
use fault::NetlistFault;
use std::alloc::{AllocError, Global};
use std::fmt::Write;

const TABLES: usize = 400;

// Sizes and entries that may be anything.
fn draw_any(heap: Global, numbers: &mut Numbers) -> Result<Table, AllocError> {
    let inputs = numbers.below(6) as u8;
    let outputs = numbers.below(6) as u8;
    let count = numbers.below(20);
    Ok(Table {
        inputs,
        outputs,
        entries: numbers.draw_bytes(heap, count, 20)?,
    })
}

// A lawful table, but for one entry.
fn draw_damaged(heap: Global, numbers: &mut Numbers) -> Result<Table, AllocError> {
    let Table {
        inputs,
        outputs,
        entries,
    } = Table::draw(heap, numbers)?;
    let at = numbers.below(entries.len());
    let value = numbers.below(20) as u8;
    Ok(Table {
        inputs,
        outputs,
        entries: with_byte(heap, &entries, at, value)?,
    })
}

// An output at every argument.
fn column(heap: Global, table: &TruthTable, c: usize) -> Result<String, AllocError> {
    (0..table.arguments())
        .map(|argument| if table.value(c, argument) { '1' } else { '0' })
        .collect(heap)
}

fn columns(heap: Global, table: &TruthTable) -> Result<String, AllocError> {
    let mut text = String::from_str(heap, "accepted")?;
    for c in 0..table.outputs() {
        let column = column(heap, table, c)?;
        write!(text, " {column}")?;
    }
    Ok(text)
}

fn told(heap: Global, table: Result<TruthTable, NetlistFault>) -> Result<String, AllocError> {
    match table {
        Ok(table) => columns(heap, &table),
        Err(fault) => fault.to_string(heap),
    }
}

fn made(drawn: &Table) -> Result<TruthTable, NetlistFault> {
    TruthTable::try_new(
        usize::from(drawn.inputs),
        usize::from(drawn.outputs),
        &drawn.entries,
    )
}

// Another table, filled.
fn filled(drawn: &Table) -> Result<TruthTable, NetlistFault> {
    let mut table = TruthTable::identity();
    table.fill(
        usize::from(drawn.inputs),
        usize::from(drawn.outputs),
        &drawn.entries,
    )?;
    Ok(table)
}

// What is told of the table that is made and of the one that is filled, which is the same.
fn write_table(page: &mut Page, drawn: &Table) -> Result<(), AllocError> {
    let heap = *page.text.allocator();
    let inputs = drawn.inputs;
    let outputs = drawn.outputs;
    let count = drawn.entries.len();
    let made = told(heap, made(drawn))?;
    let filled = told(heap, filled(drawn))?;
    let same = if made == filled {
        made.as_str()
    } else {
        "made and filled differ"
    };
    writeln!(page.text, "table {inputs} {outputs} {count} {same}")
}

pub fn write_tables(page: &mut Page) -> Result<(), AllocError> {
    let heap = *page.text.allocator();
    for turn in 0..TABLES {
        let drawn = match turn % 4 {
            1 => Table::draw(heap, &mut page.numbers)?,
            3 => draw_damaged(heap, &mut page.numbers)?,
            _ => draw_any(heap, &mut page.numbers)?,
        };
        write_table(page, &drawn)?;
    }
    Ok(())
}
