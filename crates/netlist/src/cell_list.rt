// A netlist whose cells lie in the caller's memory.
ghost use Rattle.netlist.specs.Nets.{Lawful, net_of};

use crate::cell::Cell;

pub mod making;

// The cells are lawful for as long as the list exists.
#[derive(Clone, Copy, Debug)]
pub struct CellList<'a> {
    inputs: usize,
    cells: &'a [Cell],
    ghost lawful: { Lawful (net_of inputs cells.now) },
}
