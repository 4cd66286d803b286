// A bit in a byte, of which only the lowest bit counts.
ghost use Rattle.std.specs.Prelude.{◌≡◌, ◌/◌, ◌%◌, ◌^◌, ◌<◌};
ghost use Rattle.netlist.specs.Circuit.{bit, bit_of};
ghost use Rattle.value.specs.Values.{lane_ops};

use crate::wire_value::WireValue;

// Bit number `i` of a table, of which there are sixteen.
pub(crate) fn table_bit(table: u16, i: u8) -> u8
    requires { i < 16 }
    ensures { result ≡ bit_of (bit table i) }
{
    ((table >> i) % 2) as u8
}

impl WireValue for u8 {
    ghost ops = { lane_ops 1 };

    fn none() -> u8 {
        0
    }

    fn invert(self) -> u8 {
        1 - self % 2
    }

    fn both(self, other: u8) -> u8 {
        (self & other) % 2
    }

    fn differ(self, other: u8) -> u8 {
        (self ^ other) % 2
    }

    fn register(self) -> u8 {
        self
    }

    // By the number of operands: as a loop a look-up of four takes five times the instructions.
    fn look(table: u16, width: u8, a: u8, b: u8, c: u8, d: u8) -> u8 {
        match width {
            0 => table_bit(table, 0),
            1 => table_bit(table, a % 2),
            2 => table_bit(table, a % 2 + 2 * (b % 2)),
            3 => table_bit(table, a % 2 + 2 * (b % 2) + 4 * (c % 2)),
            _ => table_bit(table, a % 2 + 2 * (b % 2) + 4 * (c % 2) + 8 * (d % 2)),
        }
    }
}
