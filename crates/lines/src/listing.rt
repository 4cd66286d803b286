// What a block consists of, a line for each part.
use block::blocks::Block;
use std::alloc::{AllocError, Global};
use std::fmt;

// The parts of a block, a line for each.
#[derive(Drop)]
struct Parts<'a, B>(&'a B);

impl<B: Block> Parts<'_, B> {
    fn sizes<W: fmt::Write>(&self, f: &mut fmt::Formatter<W>) -> fmt::Result {
        writeln!(f, "inputs {} outputs {}", self.0.inputs(), self.0.outputs())
    }

    fn table<W: fmt::Write>(&self, f: &mut fmt::Formatter<W>) -> fmt::Result {
        f.write_str("table")?;
        for entry in (0..16).map_while(|argument| self.0.entry(argument)) {
            write!(f, " {entry}")?;
        }
        f.write_str("\n")
    }

    fn cells<W: fmt::Write>(&self, f: &mut fmt::Formatter<W>) -> fmt::Result {
        let driven = (0..self.0.wires()).filter_map(|wire| Some((wire, self.0.cell(wire)?)));
        for (wire, cell) in driven {
            writeln!(f, "wire {wire} {cell}")?;
        }
        Ok(())
    }

    fn outputs<W: fmt::Write>(&self, f: &mut fmt::Formatter<W>) -> fmt::Result {
        let pairs = (0..self.0.outputs()).filter_map(|c| self.0.output(c));
        for (c, (zeroth, first)) in pairs.enumerate() {
            writeln!(f, "output {c} wires {zeroth} {first}")?;
        }
        Ok(())
    }
}

// The sizes, the table, the cells and the outputs.
impl<B: Block> fmt::Display for Parts<'_, B> {
    fn fmt<W: fmt::Write>(&self, f: &mut fmt::Formatter<W>) -> fmt::Result {
        self.sizes(f)?;
        self.table(f)?;
        self.cells(f)?;
        self.outputs(f)
    }
}

// The sizes, the table, the cells and the outputs.
pub fn listing<B: Block>(heap: Global, block: &B) -> Result<String, AllocError> {
    Parts(block).to_string(heap)
}
