// Writing a block's file.
ghost use Rattle.std.specs.Prelude.{◌≡◌, ◌+◌, ◌*◌, ◌^◌, ◌≤◌, [], ◌∷◌, ◌++◌, length};
ghost use Rattle.blockfile.specs.Format.{field, cell_fields, pair_bytes, file_of};
ghost use Rattle.blockfile.specs.Laws.{WrittenIsRead, OneFileEach};
ghost use Rattle.blockfile.specs.Writing.{write_answer, after_write, put_at};

use crate::fields::{
    CELL_FIELD, ENTRIES, ENTRIES_FIELD, ENTRIES_PLACE, HEADER, INPUTS_PLACE, OUTPUTS, SIZES,
};
use crate::puts::{cell_field, header, put, wires};
use block::blocks::Block;
use fault::NetlistFault;

// How many entries the table has.
fn entry_count<B: Block>(source: &B) -> usize
    ensures { result ≡ length (B.block source.now).table.entries }
{
    1 << source.inputs()
}

// How many cells there are.
fn cell_count<B: Block>(source: &B) -> usize
    ensures { result ≡ length (B.block source.now).cells }
{
    source.wires() - 2 * source.inputs()
}

// The entries of the table.
fn put_entries<B: Block>(source: &B, out: &mut [u8])
    requires { length out.old ≡ length (B.block source.now).table.entries }
    ensures { out.new ≡ (B.block source.now).table.entries }
{
    for (argument, entry) in out.iter_mut().enumerate() {
        *entry = source.entry(argument).unwrap();
    }
}

// The fields of the sizes and of the entries.
fn put_table<B: Block>(source: &B, out: &mut [u8])
    requires { length out.old ≡ 8 + length (B.block source.now).table.entries }
    ensures { out.new ≡ field 1 ((B.block source.now).table.n ∷ (B.block source.now).table.m ∷ []) ++ field 2 (B.block source.now).table.entries }
{
    put(out, 0, &header(SIZES, 2));
    put(
        out,
        INPUTS_PLACE,
        &[source.inputs() as u8, source.outputs() as u8],
    );
    put(
        out,
        ENTRIES_FIELD,
        &header(ENTRIES, entry_count(source) as u16),
    );
    put_entries(source, &mut out[ENTRIES_PLACE..]);
}

// The fields of the cells.
fn put_cells<B: Block>(source: &B, out: &mut [u8])
    requires { length out.old ≡ 14 * length (B.block source.now).cells }
    ensures { out.new ≡ cell_fields (B.block source.now).cells }
{
    let first = 2 * source.inputs();
    // Tried over `chunks_exact_mut`, over `as_chunks_mut` and as a walk by `split_at_mut` or `split_first_chunk_mut`: the proof did not close, as nothing says what `out` holds after such a loop.
    for k in 0..cell_count(source) {
        let x = source.cell(first + k).unwrap();
        put(out, CELL_FIELD * k, &cell_field(x));
    }
}

// The field of the outputs.
fn put_outputs<B: Block>(source: &B, out: &mut [u8])
    requires { length out.old ≡ 3 + 4 * length (B.block source.now).outputs }
    ensures { out.new ≡ field 4 (pair_bytes (B.block source.now).outputs) }
{
    let m = source.outputs();
    put(out, 0, &header(OUTPUTS, 4 * m as u16));
    // Tried over `chunks_exact_mut`, over `as_chunks_mut` and as a walk by `split_at_mut`: as for the cells, nothing says what `out` holds after such a loop.
    for c in 0..m {
        let (zeroth, first) = source.output(c).unwrap();
        put(out, HEADER + 4 * c, &wires(zeroth, first));
    }
}

// Writes the file of a block into memory, and answers its length; or how much memory it needs, and changes nothing.
pub fn write<B: Block>(source: &B, out: &mut [u8]) -> Result<usize, NetlistFault>
    ensures answer { result ≡ write_answer (length (file_of (B.block source.now))) (length out.old) }
    ensures memory { out.new ≡ after_write result (file_of (B.block source.now)) out.old }
    ensures read { WrittenIsRead }
    ensures one { OneFileEach }
{
    let body = ENTRIES_PLACE + entry_count(source);
    let outputs = body + CELL_FIELD * cell_count(source);
    let needed = outputs + HEADER + 4 * source.outputs();
    if out.len() < needed {
        return Err(NetlistFault::Memory(needed));
    }
    put_table(source, &mut out[..body]);
    put_cells(source, &mut out[body..outputs]);
    put_outputs(source, &mut out[outputs..needed]);
    Ok(needed)
}
