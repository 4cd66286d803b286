// Whether bytes are a block's file.
ghost use Rattle.std.specs.Prelude.{◌≡◌, ◌+◌, ◌*◌, ◌/◌, ◌%◌, ◌^◌, ◌&&◌, ◌==◌, ◌<◌, ◌≤◌, length, nat_lt, slice_index};
ghost use Rattle.blockfile.specs.Parts.{file_size};
ghost use Rattle.blockfile.specs.Reading.{in_bounds, one_to_four, entry_bounds, cell_bounds, pairs_from, pair_bounds, body_read};
ghost use Rattle.blockfile.specs.Answers.{forget, file_answer};
ghost use Rattle.blockfile.specs.Laws.{ReadIsWritten, ReadIsLawful, OneAnswerEach};

use crate::fields::{
    CELL, CELL_SIZE, ENTRIES, INPUTS_PLACE, OUTPUTS, OUTPUTS_PLACE, SIZES, power_of_two, read_cell,
    within,
};
use crate::part::Part;
use fault::FieldFault;
use netlist::cell::Kind;
use netlist::netlist::MOST_WIRES;

fn is_size(x: u8) -> bool
    ensures { result ≡ one_to_four x }
{
    (1..=4).contains(&x)
}

// The entries of a table of `m` outputs.
fn check_entries(entries: Part<'_>, m: u8) -> Result<(), FieldFault>
    requires { m ≤ 4 }
    ensures { result ≡ in_bounds (entry_bounds m entries.entry.place entries.entry.bytes.now) }
{
    let limit = power_of_two(m);
    for (k, entry) in entries.bytes.iter().enumerate() {
        within(entries.place + k, usize::from(*entry) < limit)?;
    }
    Ok(())
}

// The parts of the cell on wire `wire`.
fn check_cell(cell: Part<'_>, wire: usize) -> Result<(), FieldFault>
    requires { length cell.bytes.now ≡ 11 }
    ensures { result ≡ in_bounds (cell_bounds cell.entry.place wire cell.entry.bytes.now) }
{
    let place = cell.place;
    within(place, cell.bytes[0] <= u8::from(Kind::Look4))?;
    let x = read_cell(cell.bytes);
    within(place + 1, u32::from(x.table) < x.kind.table_limit())?;
    within(place + 3, usize::from(x.a) < x.kind.operand_limit(wire, 0))?;
    within(place + 5, usize::from(x.b) < x.kind.operand_limit(wire, 1))?;
    within(place + 7, usize::from(x.c) < x.kind.operand_limit(wire, 2))?;
    within(place + 9, usize::from(x.d) < x.kind.operand_limit(wire, 3))
}

// The wires of the outputs, two for each, all below `wires`.
fn check_outputs(outputs: Part<'_>, wires: usize) -> Result<(), FieldFault>
    requires { length outputs.bytes.now % 4 ≡ 0 }
    ensures { result ≡ in_bounds (pair_bounds wires outputs.entry.place (pairs_from (length outputs.entry.bytes.now / 4) 0 outputs.entry.bytes.now)) }
{
    let (numbers, _) = outputs.bytes.as_chunks::<2>();
    for (k, number) in numbers.iter().enumerate() {
        let wire = u16::from_be_bytes(*number);
        within(outputs.place + 2 * k, usize::from(wire) < wires)?;
    }
    Ok(())
}

// Whether a cell's field is due, for wire `wire`.
fn cell_due(rest: Part<'_>, wire: usize) -> bool
    ensures { result ≡ (slice_index rest.entry.bytes.now 0 == 3 && nat_lt wire 4096) }
{
    matches!(rest.bytes, [CELL, ..]) && wire < MOST_WIRES
}

// The cells of a block with `n` inputs, and its `m` outputs.
fn check_body(mut rest: Part<'_>, n: u8, m: u8) -> Result<(), FieldFault>
    requires { 8 ≤ rest.place }
    ensures { result ≡ forget (body_read (file_size rest.entry) (file_size rest.entry) rest.entry.place (2 * n) m rest.entry.bytes.now) }
{
    let mut wire = 2 * usize::from(n);
    // Not a `for` over the wires: how many cells a file has is not known before they are read, and the outputs are checked against that count.
    while cell_due(rest, wire) {
        let cell = rest.open(CELL, CELL_SIZE)?;
        check_cell(cell.payload, wire)?;
        rest = cell.rest;
        wire += 1;
    }
    let outputs = rest.open(OUTPUTS, 4 * usize::from(m))?;
    check_outputs(outputs.payload, wire)?;
    if outputs.rest.bytes.is_empty() {
        Ok(())
    } else {
        Err(FieldFault::Trailing(outputs.rest.place))
    }
}

// The fields of a file, one after another.
fn check_fields(bytes: &[u8]) -> Result<(), FieldFault>
    ensures { result ≡ file_answer bytes.now }
{
    let sizes = Part { place: 0, bytes }.open(SIZES, 2)?;
    let n = sizes.payload.bytes[0];
    let m = sizes.payload.bytes[1];
    within(INPUTS_PLACE, is_size(n))?;
    within(OUTPUTS_PLACE, is_size(m))?;
    let entries = sizes.rest.open(ENTRIES, power_of_two(n))?;
    check_entries(entries.payload, m)?;
    check_body(entries.rest, n, m)
}

// Whether the bytes are the file of a block; else the first fault, and its place.
pub fn check(bytes: &[u8]) -> Result<(), FieldFault>
    ensures answer { result ≡ file_answer bytes.now }
    ensures written { ReadIsWritten }
    ensures lawful { ReadIsLawful }
    ensures one { OneAnswerEach }
{
    check_fields(bytes)
}
