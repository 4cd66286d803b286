// Viewing a file as a block: every answer is read at its place.
ghost use Rattle.std.specs.Prelude.{◌≡◌, ◌+◌, ◌^◌, length};
ghost use Rattle.blockfile.specs.Viewing.{block_in};
ghost use Rattle.blockfile.specs.Views.{viewed, viewed_net, viewed_net_lawful, viewed_part, viewed_lawful, IsViewOf};

use crate::checking::check;
use crate::fields::{
    CELL_FIELD, CELL_SIZE, ENTRIES_PLACE, HEADER, INPUTS_PLACE, OUTPUTS_PLACE, pair, power_of_two,
    read_cell,
};
use crate::file_view::FileView;
use block::blocks::Block;
use fault::FieldFault;
use netlist::cell::Cell;
use netlist::netlist::Netlist;

// The file of the identity block: one input, which is the output.
pub static IDENTITY: [u8; 17] = [1, 0, 2, 1, 1, 2, 0, 2, 0, 1, 4, 0, 4, 0, 0, 0, 1];

// The view of the bytes where they are a block's file; else the first fault, and its place.
impl<'a> TryFrom<&'a [u8]> for FileView<'a> {
    type Error = FieldFault;

    ghost try_from_gives = { λ bytes r. IsViewOf bytes.now r };

    fn try_from(bytes: &'a [u8]) -> Result<FileView<'a>, FieldFault> {
        check(bytes)?;
        Ok(FileView { bytes })
    }
}

// The view of the bytes where they are a block's file, else of the identity's.
pub fn view(bytes: &[u8]) -> FileView<'_>
    ensures { viewed result ≡ block_in bytes.now }
{
    FileView::try_from(bytes).unwrap_or(FileView { bytes: &IDENTITY })
}

impl FileView<'_> {
    // Where the first cell's field begins, or the outputs' where there is no cell.
    fn body(&self) -> usize
        ensures { result ≡ 8 + 2 ^ (viewed self.now).table.n }
    {
        ENTRIES_PLACE + power_of_two(self.bytes[INPUTS_PLACE])
    }

    // The entries of the table.
    fn entries(&self) -> &[u8]
        ensures { result.now ≡ (viewed self.now).table.entries }
    {
        &self.bytes[ENTRIES_PLACE..self.body()]
    }

    // How many cells there are, by the length of the file.
    fn cell_count(&self) -> usize
        ensures { result ≡ length (viewed self.now).cells }
    {
        let m = self.bytes[OUTPUTS_PLACE];
        (self.bytes.len() - self.body() - HEADER - 4 * usize::from(m)) / CELL_FIELD
    }
}

impl Netlist for FileView<'_> {
    ghost net = { viewed_net };

    fn inputs(&self) -> usize {
        usize::from(self.bytes[INPUTS_PLACE])
    }

    fn wires(&self) -> usize {
        2 * self.inputs() + self.cell_count()
    }

    fn cell(&self, wire: usize) -> Option<Cell> {
        let k = wire.checked_sub(2 * self.inputs())?;
        if k >= self.cell_count() {
            return None;
        }
        let place = self.body() + CELL_FIELD * k + HEADER;
        Some(read_cell(&self.bytes[place..place + CELL_SIZE]))
    }

    ghost lawful = { viewed_net_lawful };
}

impl Block for FileView<'_> {
    ghost block = { viewed };

    fn outputs(&self) -> usize {
        usize::from(self.bytes[OUTPUTS_PLACE])
    }

    fn entry(&self, argument: usize) -> Option<u8> {
        self.entries().get(argument).copied()
    }

    fn output(&self, c: usize) -> Option<(u16, u16)> {
        if c >= self.outputs() {
            return None;
        }
        let place = self.body() + CELL_FIELD * self.cell_count() + HEADER + 4 * c;
        Some((pair(self.bytes, place), pair(self.bytes, place + 2)))
    }

    ghost part = { viewed_part };

    ghost whole = { viewed_lawful };
}
