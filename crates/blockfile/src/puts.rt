// The parts of a file as bytes, and putting them into memory.
ghost use Rattle.std.specs.Prelude.{◌≡◌, ◌+◌, ◌≤◌, ◌∷◌, ◌++◌, length};
ghost use Rattle.blockfile.specs.Format.{two, field, cell_bytes};
ghost use Rattle.blockfile.specs.Writing.{put_at};

use crate::fields::CELL;
use netlist::cell::Cell;

// Puts bytes into memory at a place.
pub(crate) fn put(out: &mut [u8], at: usize, bytes: &[u8])
    requires { at + length bytes.now ≤ length out.old }
    ensures { out.new ≡ put_at at bytes.now out.old }
{
    out[at..at + bytes.len()].copy_from_slice(bytes);
}

// The tag and the length of a field.
pub(crate) fn header(tag: u8, size: u16) -> [u8; 3]
    ensures { result ≡ tag ∷ two size }
{
    let [hi, lo] = size.to_be_bytes();
    [tag, hi, lo]
}

// The wires of an output.
pub(crate) fn wires(zeroth: u16, first: u16) -> [u8; 4]
    ensures { result ≡ two zeroth ++ two first }
{
    let [zeroth_hi, zeroth_lo] = zeroth.to_be_bytes();
    let [first_hi, first_lo] = first.to_be_bytes();
    [zeroth_hi, zeroth_lo, first_hi, first_lo]
}

// The field of a cell.
pub(crate) fn cell_field(x: Cell) -> [u8; 14]
    ensures { result ≡ field 3 (cell_bytes x) }
{
    let mut bytes = [0u8; 14];
    put(&mut bytes, 0, &[CELL, 0, 11, u8::from(x.kind)]);
    put(&mut bytes, 4, &x.table.to_be_bytes());
    put(&mut bytes, 6, &x.a.to_be_bytes());
    put(&mut bytes, 8, &x.b.to_be_bytes());
    put(&mut bytes, 10, &x.c.to_be_bytes());
    put(&mut bytes, 12, &x.d.to_be_bytes());
    bytes
}
