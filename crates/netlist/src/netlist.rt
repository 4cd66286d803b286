// What answers as a netlist.
ghost use Rattle.std.specs.Prelude.{◌≡◌};
ghost use Rattle.netlist.specs.Nets.{Net, Lawful, net_wires, cell_at};

use crate::cell::Cell;

// The most inputs that a netlist has.
pub const MOST_INPUTS: usize = 8;

// The most wires that a netlist has.
pub const MOST_WIRES: usize = 4096;

// Anything that answers from one finished list of cells.
pub trait Netlist {
    // The inputs and the cells.
    ghost net: { Self → Net };

    fn inputs(&self) -> usize
        ensures { result ≡ (net self.now).inputs };

    fn wires(&self) -> usize
        ensures { result ≡ net_wires (net self.now) };

    // The cell that drives a wire: none for an input share, and none past the last wire.
    fn cell(&self, wire: usize) -> Option<Cell>
        ensures { result ≡ cell_at (net self.now) wire };

    // That all bounds hold of them.
    ghost lawful: { (x : Self) → Lawful (net x) };
}
