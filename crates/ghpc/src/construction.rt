// What makes a block of a truth table.
ghost use Rattle.std.specs.Prelude.{◌≡◌, ℕ, ◌<◌, Bool, true, List, Some};
ghost use Rattle.netlist.specs.declared.cell.Cell.{Cell};
ghost use Rattle.netlist.specs.Circuit.{mask_count};
ghost use Rattle.netlist.specs.Nets.{nth};
ghost use Rattle.block.specs.Blocks.{Table, Whole, LawfulTable, LawfulBlock};
ghost use Rattle.block.specs.Tables.{tabled};
ghost use Rattle.verdict.specs.Rules.{circuit_of, Accepted, latency};
ghost use Rattle.constructions.specs.Layers.{Layered};

use block::table::TruthTable;
use netlist::cell::Cell;

// A construction: its masks, and for each output its cells and its two wires.
pub trait Construction {
    // The block of a table, and whether the construction serves it.
    ghost block_of: { Table → Whole };

    ghost serves: { Table → Bool };

    // How many wires an output has, and its cells.
    ghost breadth_of: { Table → ℕ };

    ghost cells_of: { Table → ℕ → List Cell };

    fn serves(table: &TruthTable) -> bool
        ensures { result ≡ serves (tabled table.now) };

    fn masks(table: &TruthTable) -> usize
        ensures { result ≡ mask_count (circuit_of (block_of (tabled table.now))) };

    fn latency(table: &TruthTable) -> usize
        ensures { result ≡ latency (block_of (tabled table.now)) };

    fn breadth(table: &TruthTable) -> usize
        ensures { result ≡ breadth_of (tabled table.now) };

    // The cell at a place of an output.
    fn output_cell(table: &TruthTable, c: usize, place: usize) -> Cell
        requires { (c < (tabled table.now).m) × (place < breadth_of (tabled table.now)) }
        ensures { Some result ≡ nth (cells_of (tabled table.now) c) place };

    // The wires of an output, that of domain 0 first.
    fn output(table: &TruthTable, c: usize) -> (u16, u16)
        requires { c < (tabled table.now).m }
        ensures { Some result ≡ nth (block_of (tabled table.now)).outputs c };

    // All bounds hold of the block of a table.
    ghost lawful: { (t : Table) → LawfulTable t → LawfulBlock (block_of t) };

    // Its wires lie in layers.
    ghost layered: { (t : Table) → LawfulTable t → Layered t (block_of t) (mask_count (circuit_of (block_of t))) (breadth_of t) (cells_of t) };

    // All rules hold of it where the construction serves the table.
    ghost accepted: { (t : Table) → LawfulTable t → serves t ≡ true → Accepted (block_of t) };
}
