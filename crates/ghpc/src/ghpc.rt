// GHPC: a block that asks for one mask for each output, with latency 2.
ghost use Rattle.std.specs.Prelude.{◌≡◌, true};
ghost use Rattle.block.specs.Tables.{tabled};
ghost use Rattle.constructions.specs.Gates.{cell_gates};
ghost use Rattle.constructions.specs.Ghpc.{breadth, output_cells, ghpc_of};
ghost use Rattle.constructions.proofs.GhpcLawful.{lawful_ghpc};
ghost use Rattle.constructions.proofs.GhpcLayers.{layered_ghpc};
ghost use Rattle.constructions.proofs.GhpcAccepted.{accepted_ghpc};

use crate::construction::Construction;
use crate::gates::{Layout, Product, gate, join_cell};
use crate::generated::Generated;
use block::blocks::Block;
use block::table::TruthTable;
use netlist::cell::{Cell, Kind};

pub type Ghpc = Generated<OneMask>;

// The construction with one mask for each output.
#[derive(Clone, Copy, Debug)]
pub struct OneMask;

impl Construction for OneMask {
    ghost block_of = { ghpc_of };

    ghost serves = { λ t. true };

    ghost breadth_of = { breadth };

    ghost cells_of = { λ t. output_cells t (cell_gates t) };

    ghost lawful = { lawful_ghpc };

    ghost layered = { layered_ghpc };

    ghost accepted = { λ t l served. accepted_ghpc t l };

    fn serves(_table: &TruthTable) -> bool {
        true
    }

    fn masks(table: &TruthTable) -> usize {
        table.outputs()
    }

    fn latency(_table: &TruthTable) -> usize {
        2
    }

    fn breadth(table: &TruthTable) -> usize {
        6 * table.arguments() + 1
    }

    // The products, the chain that joins their terms, and the mask held twice.
    fn output_cell(table: &TruthTable, c: usize, place: usize) -> Cell {
        let at = Layout::of(table, table.outputs());
        let all = at.arguments;
        let start = at.outputs + c * Self::breadth(table);
        if place < 5 * all {
            let i = place / 5;
            let product = Product {
                output: c,
                argument: i,
                entry: start + 5 * i,
                mask: at.masks + c,
                decoded: at.selectors + 2 * i,
            };
            product.cell(table, place % 5, gate(Kind::Reg, product.entry + 3, 0))
        } else if place < 6 * all - 1 {
            join_cell(start + 4, start + 5 * all, place - 5 * all)
        } else if place == 6 * all - 1 {
            gate(Kind::Reg, at.masks + c, 0)
        } else {
            gate(Kind::Reg, start + 6 * all - 1, 0)
        }
    }

    // The register of the mask's register in domain 0, all terms joined in domain 1.
    fn output(table: &TruthTable, c: usize) -> (u16, u16) {
        let at = Layout::of(table, table.outputs());
        let end = at.outputs + (c + 1) * Self::breadth(table);
        ((end - 1) as u16, (end - 3) as u16)
    }
}

impl Ghpc {
    // The block of a table.
    pub fn new(table: TruthTable) -> Ghpc
        ensures { ⟦<Ghpc as Block>⟧.block result ≡ ghpc_of (tabled table) }
    {
        Generated::of_served(table)
    }
}
