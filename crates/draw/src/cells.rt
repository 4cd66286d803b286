// Drawing cells and bits.
ghost use Rattle.std.specs.Prelude.{◌≡◌, ◌+◌, ◌%◌, ◌^◌, ◌<◌, IfOk, length};
ghost use Rattle.netlist.specs.Cells.{kind_of};

use crate::numbers::Numbers;
use netlist::cell::{Cell, Kind};
use std::alloc::{AllocError, Global};

// The kind with this number, counted from 0 again after the last.
pub fn kind_at(number: usize) -> Kind
    ensures { result ≡ kind_of (number % 9) }
{
    Kind::try_from((number % 9) as u8).unwrap()
}

impl Numbers {
    // Draws the table of a look-up; elsewhere it is zero, with no draw.
    fn draw_table(&mut self, kind: Kind) -> u16 {
        match kind.table_limit() {
            1 => 0,
            limit => self.below_u16(limit as usize),
        }
    }

    // Draws the cell of a wire: the kind, then the table, then each operand in use. Those that are not are zero, with no draw.
    fn draw_cell(&mut self, wire: usize) -> Cell {
        let kind = kind_at(self.below(9));
        let table = self.draw_table(kind);
        let mut operands = [0; 4];
        for operand in operands.iter_mut().take(usize::from(kind.operands())) {
            *operand = self.below_u16(wire);
        }
        let [a, b, c, d] = operands;
        Cell {
            kind,
            table,
            a,
            b,
            c,
            d,
        }
    }

    // Draws `count` cells in wire order, the first of them for the wire `first`.
    pub fn draw_cells(
        &mut self,
        heap: Global,
        first: usize,
        count: usize,
    ) -> Result<Vec<Cell>, AllocError>
        ensures { first + count < 2 ^ 64 → IfOk result (λ cells. length cells.items ≡ count) }
    {
        (first..first.saturating_add(count))
            .map(|wire| self.draw_cell(wire))
            .collect(heap)
    }

    // Draws `count` bytes below `limit`.
    pub fn draw_bytes(
        &mut self,
        heap: Global,
        count: usize,
        limit: u8,
    ) -> Result<Vec<u8>, AllocError>
        ensures { IfOk result (λ bytes. length bytes.items ≡ count) }
    {
        (0..count)
            .map(|_| self.below(usize::from(limit)) as u8)
            .collect(heap)
    }

    // Draws `count` bytes of 0 or 1.
    pub fn draw_bits(&mut self, heap: Global, count: usize) -> Result<Vec<u8>, AllocError>
        ensures { IfOk result (λ bits. length bits.items ≡ count) }
    {
        self.draw_bytes(heap, count, 2)
    }
}

#[cfg(test)]
mod tests {
    use super::*;
    use std::test::Fail;

    #[test]
    fn draws_as_many(rt: HostRuntime) -> Result<(), Fail> {
        let heap = rt.alloc();
        let mut numbers = Numbers::new(1);
        assert_eq!(rt; numbers.draw_cells(heap, 2, 5)?.len(), 5);
        assert_eq!(rt; numbers.draw_bits(heap, 6)?.len(), 6);
        assert_eq!(rt; numbers.draw_bytes(heap, 7, 16)?.len(), 7);
        Ok(())
    }
}
