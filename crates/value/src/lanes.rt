// 64 bits side by side, one in each lane of a word.
ghost use Rattle.std.specs.Prelude.{◌≡◌, ℕ, ◌<◌, [], ◌∷◌, if◌then◌else◌};
ghost use Rattle.netlist.specs.Circuit.{bit, number};
ghost use Rattle.value.specs.Values.{lane, lane_ops};

use crate::bits::table_bit;
use crate::wire_value::WireValue;

// In each lane `hi` where `x` is set, else `lo`.
fn pick(x: u64, lo: u64, hi: u64) -> u64
    ensures { (j : ℕ) → lane j result ≡ (if lane j x then lane j hi else lane j lo) }
{
    lo ^ (x & (lo ^ hi))
}

// Bit `i` of the table in each lane.
fn leaf(table: u16, i: u8) -> u64
    requires { i < 16 }
    ensures { (j : ℕ) → j < 64 → lane j result ≡ bit table i }
{
    if table_bit(table, i) == 1 {
        u64::MAX
    } else {
        0
    }
}

// A look-up, by the number of operands: as one recursion one of four takes six times the instructions.
fn look1(table: u16, a: u64) -> u64
    ensures { (j : ℕ) → j < 64 → lane j result ≡ bit table (number (lane j a ∷ [])) }
{
    pick(a, leaf(table, 0), leaf(table, 1))
}

fn look2(table: u16, a: u64, b: u64) -> u64
    ensures { (j : ℕ) → j < 64 → lane j result ≡ bit table (number (lane j a ∷ lane j b ∷ [])) }
{
    pick(b, look1(table, a), look1(table >> 2, a))
}

fn look3(table: u16, a: u64, b: u64, c: u64) -> u64
    ensures { (j : ℕ) → j < 64 → lane j result ≡ bit table (number (lane j a ∷ lane j b ∷ lane j c ∷ [])) }
{
    pick(c, look2(table, a, b), look2(table >> 4, a, b))
}

fn look4(table: u16, a: u64, b: u64, c: u64, d: u64) -> u64
    ensures { (j : ℕ) → j < 64 → lane j result ≡ bit table (number (lane j a ∷ lane j b ∷ lane j c ∷ lane j d ∷ [])) }
{
    pick(d, look3(table, a, b, c), look3(table >> 8, a, b, c))
}

impl WireValue for u64 {
    ghost ops = { lane_ops 64 };

    fn none() -> u64 {
        0
    }

    fn invert(self) -> u64 {
        self ^ u64::MAX
    }

    fn both(self, other: u64) -> u64 {
        self & other
    }

    fn differ(self, other: u64) -> u64 {
        self ^ other
    }

    fn register(self) -> u64 {
        self
    }

    fn look(table: u16, width: u8, a: u64, b: u64, c: u64, d: u64) -> u64 {
        match width {
            0 => leaf(table, 0),
            1 => look1(table, a),
            2 => look2(table, a, b),
            3 => look3(table, a, b, c),
            _ => look4(table, a, b, c, d),
        }
    }
}
