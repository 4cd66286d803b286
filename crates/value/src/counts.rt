// Register counts.
ghost use Rattle.std.specs.Prelude.{◌≡◌};
ghost use Rattle.value.specs.Values.{count_ops};

use crate::wire_value::WireValue;

impl WireValue for u16 {
    ghost ops = { count_ops };

    fn none() -> u16 {
        u16::MIN
    }

    fn invert(self) -> u16 {
        self
    }

    fn both(self, other: u16) -> u16 {
        self.max(other)
    }

    fn differ(self, other: u16) -> u16 {
        self.max(other)
    }

    fn register(self) -> u16 {
        self.saturating_add(1)
    }

    // By the number of operands: as a chain with `max` a look-up of four takes four times the instructions.
    fn look(_table: u16, width: u8, a: u16, b: u16, c: u16, d: u16) -> u16 {
        match width {
            0 => 0,
            1 => a,
            2 => a.max(b),
            3 => a.max(b).max(c),
            _ => a.max(b).max(c).max(d),
        }
    }
}
