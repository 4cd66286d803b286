// What answers as a block.
ghost use Rattle.std.specs.Prelude.{◌≡◌};
ghost use Rattle.netlist.specs.Nets.{nth};
ghost use Rattle.block.specs.Blocks.{Whole, LawfulBlock, net_part};

use netlist::netlist::Netlist;

// A netlist that also names a truth table and its outputs. The table has as many inputs as the netlist.
pub trait Block: Netlist {
    // The table, the cells and the outputs.
    ghost block: { Self → Whole };

    fn outputs(&self) -> usize
        ensures { result ≡ (block self.now).table.m };

    // The table's entry at an argument, and none past the last.
    fn entry(&self, argument: usize) -> Option<u8>
        ensures { result ≡ nth (block self.now).table.entries argument };

    // The wires of an output, that of domain 0 first, and none past the last output.
    fn output(&self, c: usize) -> Option<(u16, u16)>
        ensures { result ≡ nth (block self.now).outputs c };

    // Its netlist is that of the table's inputs and the cells.
    ghost part: { (x : Self) → Self.net x ≡ net_part (block x) };

    // All bounds hold of the table, the cells and the outputs.
    ghost whole: { (x : Self) → LawfulBlock (block x) };
}
