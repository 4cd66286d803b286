// What both constructions are made of: gates, and look-ups over the shares of one domain.
ghost use Rattle.std.specs.Prelude.{◌≡◌, ◌+◌, ◌*◌, ◌/◌, ◌%◌, ◌<◌, ◌≤◌, true, [], ◌∷◌, Some, bit_xor, nat_eq, slice_index};
ghost use Rattle.netlist.specs.Nets.{nth};
ghost use Rattle.isolation.specs.Patterns.{share_wire};
ghost use Rattle.block.specs.Blocks.{output_at};
ghost use Rattle.block.specs.Tables.{tabled};
ghost use Rattle.constructions.specs.Gates.{each, argument_count, table_of, look_kind, cell_of, cell_gates, domain_shares};
ghost use Rattle.constructions.specs.Chains.{chain_wire};
ghost use Rattle.constructions.specs.Layers.{selecting_cells, selected_cells, first_selector, first_output};

use block::table::TruthTable;
use netlist::cell::{Cell, Kind};

// Where the parts of a block stand: after the shares the masks, then two wires for each argument, then the outputs.
#[derive(Clone, Copy)]
pub struct Layout {
    pub arguments: usize,
    pub masks: usize,
    pub selectors: usize,
    pub outputs: usize,
}

impl Layout {
    // That of a block of this table with so many masks.
    pub fn of(table: &TruthTable, masks: usize) -> Layout
        requires { masks ≤ 4096 }
        ensures arguments { result.arguments ≡ argument_count (tabled table.now) }
        ensures masks { result.masks ≡ 2 * (tabled table.now).n }
        ensures selectors { result.selectors ≡ first_selector (tabled table.now) masks }
        ensures outputs { result.outputs ≡ first_output (tabled table.now) masks }
    {
        let arguments = table.arguments();
        let first = 2 * table.inputs();
        Layout {
            arguments,
            masks: first,
            selectors: first + masks,
            outputs: first + masks + 2 * arguments,
        }
    }
}

// A cell that is no look-up, of wires by their numbers as they are worked out.
pub fn gate(kind: Kind, a: usize, b: usize) -> Cell
    requires { (a < 4096) × (b < 4096) }
    ensures { result ≡ cell_of kind 0 (a ∷ b ∷ []) }
{
    Cell::gate(kind, a as u16, b as u16)
}

// The wire of input `i` in a domain, zero past the last input.
fn share(n: usize, domain: bool, i: usize) -> u16
    requires { n ≤ 4 }
    ensures { result ≡ slice_index (each n (share_wire domain)) i }
{
    if i < n {
        2 * i as u16 + u16::from(domain)
    } else {
        0
    }
}

// The look-up over the shares of one domain whose table has these bits.
pub fn look(table: &TruthTable, domain: bool, bits: u16) -> Cell
    ensures { result ≡ cell_of (look_kind (tabled table.now).n) bits (domain_shares (tabled table.now) domain) }
{
    let n = table.inputs();
    // By the number of operands, of which a table has one to four.
    let kind = match n {
        1 => Kind::Look1,
        2 => Kind::Look2,
        3 => Kind::Look3,
        _ => Kind::Look4,
    };
    Cell {
        kind,
        table: bits,
        a: share(n, domain, 0),
        b: share(n, domain, 1),
        c: share(n, domain, 2),
        d: share(n, domain, 3),
    }
}

// Output `c` as a function of the shares of domain 0, if those of domain 1 were `i`.
pub fn shifted(table: &TruthTable, c: usize, i: usize) -> u16
    ensures { result ≡ table_of (tabled table.now) (λ a. output_at (tabled table.now) c (bit_xor a i)) }
{
    (0..table.arguments())
        .map(|a| u16::from(table.value(c, a ^ i)) << a)
        .sum()
}

// The cells that tell whether the shares of domain 1 are `k / 2`, from wire `first` on: the look-up and its register.
pub fn selector_cell(table: &TruthTable, first: usize, k: usize) -> Cell
    requires within { k < 2 * argument_count (tabled table.now) }
    requires low { first + k < 4096 }
    ensures { Some result ≡ nth (selecting_cells (tabled table.now) first (k / 2)) (k % 2) }
{
    let i = k / 2;
    if k % 2 == 0 {
        look(table, true, 1 << i)
    } else {
        gate(Kind::Reg, first + 2 * i, 0)
    }
}

// Cell `j` of the chain that joins the wires `first`, `first + 5`, `first + 10`, .., and stands from wire `chain` on.
pub fn join_cell(first: usize, chain: usize, j: usize) -> Cell
    requires { (first + 5 * (j + 1) < 4096) × (chain + j < 4096) }
    ensures { result ≡ cell_of Kind.Xor 0 (chain_wire first chain j ∷ (first + 5 * (j + 1)) ∷ []) }
{
    let joined = if j == 0 { first } else { chain + j - 1 };
    gate(Kind::Xor, joined, first + 5 * (j + 1))
}

// An output if the shares of domain 1 were `argument`: where its cells start, its mask, and the look-up that tells whether they are.
#[derive(Clone, Copy)]
pub struct Product {
    pub output: usize,
    pub argument: usize,
    pub entry: usize,
    pub mask: usize,
    pub decoded: usize,
    ghost low: { (entry + 3 < 4096) × ((mask < 4096) × (decoded + 1 < 4096)) },
}

impl Product {
    // Its cells in order: the look-up, masked, held, and selected, and then a last one.
    // An array of the five would be no plainer: it would add up the bits of the table for each of them.
    pub fn cell(&self, table: &TruthTable, place: usize, last: Cell) -> Cell
        requires { place < 5 }
        ensures { Some result ≡ nth (selected_cells (tabled table.now) self.now.output self.now.argument self.now.entry self.now.mask self.now.decoded last) place }
    {
        match place {
            0 => look(table, false, shifted(table, self.output, self.argument)),
            1 => gate(Kind::Xor, self.entry, self.mask),
            2 => gate(Kind::Reg, self.entry + 1, 0),
            3 => gate(Kind::And, self.decoded + 1, self.entry + 2),
            _ => last,
        }
    }
}
