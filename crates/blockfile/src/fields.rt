// The parts of a file: fields, two-byte numbers, cells, and tests of values.
ghost use Rattle.std.specs.Prelude.{◌≡◌, ◌+◌, ◌^◌, ◌≤◌, [], ◌∷◌, length};
ghost use Rattle.blockfile.specs.Reading.{pair_at, cell_from, in_bounds};

use fault::FieldFault;
use netlist::cell::{Cell, Kind};

// The tag of the sizes.
pub(crate) const SIZES: u8 = 1;

// The tag of the table's entries.
pub(crate) const ENTRIES: u8 = 2;

// The tag of a cell.
pub(crate) const CELL: u8 = 3;

// The tag of the outputs.
pub(crate) const OUTPUTS: u8 = 4;

// How many bytes a header has.
pub(crate) const HEADER: usize = 3;

// How many bytes a cell has behind its header.
pub(crate) const CELL_SIZE: usize = 11;

// How many bytes the field of a cell has.
pub(crate) const CELL_FIELD: usize = HEADER + CELL_SIZE;

// The place of the number of inputs.
pub(crate) const INPUTS_PLACE: usize = 3;

// The place of the number of outputs.
pub(crate) const OUTPUTS_PLACE: usize = 4;

// Where the field of the entries begins.
pub(crate) const ENTRIES_FIELD: usize = 5;

// The place of the first entry.
pub(crate) const ENTRIES_PLACE: usize = 8;

// Whether the value at a place is within its bounds.
pub(crate) fn within(place: usize, holds: bool) -> Result<(), FieldFault>
    ensures { result ≡ in_bounds ((place, holds) ∷ []) }
{
    if holds {
        Ok(())
    } else {
        Err(FieldFault::Value(place))
    }
}

// The number in two bytes, the high one first.
pub(crate) fn pair(bytes: &[u8], at: usize) -> u16
    requires { at + 2 ≤ length bytes.now }
    ensures { result ≡ pair_at bytes.now at }
{
    u16::from_be_bytes([bytes[at], bytes[at + 1]])
}

// The cell in eleven bytes. A number past the last kind's reads as the last.
pub(crate) fn read_cell(bytes: &[u8]) -> Cell
    requires { length bytes.now ≡ 11 }
    ensures { result ≡ cell_from bytes.now }
{
    Cell {
        kind: Kind::try_from(bytes[0]).unwrap_or(Kind::Look4),
        table: pair(bytes, 1),
        a: pair(bytes, 3),
        b: pair(bytes, 5),
        c: pair(bytes, 7),
        d: pair(bytes, 9),
    }
}

pub(crate) fn power_of_two(exponent: u8) -> usize
    requires { exponent ≤ 4 }
    ensures { result ≡ 2 ^ exponent }
{
    1 << exponent
}
