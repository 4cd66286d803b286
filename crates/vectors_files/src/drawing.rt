// Blocks drawn from a stream of numbers, as files.
use draw::numbers::Numbers;
use netlist::cell::Cell;
use std::alloc::{AllocError, Global};

// A file, and where its fields begin.
#[derive(Drop)]
pub struct File {
    pub bytes: Vec<u8>,
    pub starts: Vec<usize>,
}

impl File {
    pub fn new(heap: Global) -> File {
        File {
            bytes: Vec::new(heap),
            starts: Vec::new(heap),
        }
    }

    // One more field; of its length the lower two bytes are written.
    fn push_field(&mut self, tag: u8, value: &[u8]) -> Result<(), AllocError> {
        let [.., high, low] = value.len().to_be_bytes();
        self.starts.push(self.bytes.len())?;
        self.bytes.extend_from_slice(&[tag, high, low])?;
        self.bytes.extend_from_slice(value)
    }

    // The field of a cell.
    pub fn push_cell(&mut self, cell: Cell) -> Result<(), AllocError> {
        let mut value = vec![in *self.bytes.allocator(); u8::from(cell.kind)]?;
        for part in [cell.table, cell.a, cell.b, cell.c, cell.d] {
            value.extend_from_slice(&part.to_be_bytes())?;
        }
        self.push_field(3, &value)
    }

    fn push_cells(&mut self, cells: &[Cell]) -> Result<(), AllocError> {
        for cell in cells {
            self.push_cell(*cell)?;
        }
        Ok(())
    }
}

// The sizes and the entries of a truth table.
#[derive(Drop)]
pub struct Table {
    pub inputs: u8,
    pub outputs: u8,
    pub entries: Vec<u8>,
}

impl Table {
    // Draws one that is lawful.
    pub fn draw(heap: Global, numbers: &mut Numbers) -> Result<Table, AllocError> {
        let inputs = 1 + numbers.below(4) as u8;
        let outputs = 1 + numbers.below(4) as u8;
        let entries = numbers.draw_bytes(heap, 1 << inputs, 1 << outputs)?;
        Ok(Table {
            inputs,
            outputs,
            entries,
        })
    }
}

// A drawn block: its sizes and its file.
#[derive(Drop)]
pub struct Drawn {
    pub inputs: u8,
    pub outputs: u8,
    pub cells: usize,
    pub file: File,
}

// Draws the wires of the outputs, two for each, of so many wires.
fn draw_outputs(
    heap: Global,
    numbers: &mut Numbers,
    outputs: u8,
    wires: usize,
) -> Result<Vec<u8>, AllocError> {
    let mut value = Vec::new(heap);
    for _ in 0..2 * usize::from(outputs) {
        value.extend_from_slice(&numbers.below_u16(wires).to_be_bytes())?;
    }
    Ok(value)
}

// Draws block number `index`; each eighth one has many cells.
pub fn draw_block(heap: Global, numbers: &mut Numbers, index: usize) -> Result<Drawn, AllocError> {
    let Table {
        inputs,
        outputs,
        entries,
    } = Table::draw(heap, numbers)?;
    let count = if index % 8 == 7 {
        150 + numbers.below(250)
    } else {
        numbers.below(20)
    };
    let first = 2 * usize::from(inputs);
    let cells = numbers.draw_cells(heap, first, count)?;
    let mut file = File::new(heap);
    file.push_field(1, &[inputs, outputs])?;
    file.push_field(2, &entries)?;
    file.push_cells(&cells)?;
    let pairs = draw_outputs(heap, numbers, outputs, first + count)?;
    file.push_field(4, &pairs)?;
    Ok(Drawn {
        inputs,
        outputs,
        cells: count,
        file,
    })
}
