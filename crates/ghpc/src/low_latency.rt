// GHPC_LL: a block that asks for a mask for each argument of each output, at most 8, with latency 1.
ghost use Rattle.std.specs.Prelude.{◌≡◌, ◌*◌, ◌≤◌, true, nat_le};
ghost use Rattle.block.specs.Tables.{tabled, identity_table};
ghost use Rattle.constructions.specs.Gates.{argument_count, cell_gates};
ghost use Rattle.constructions.specs.LowLatency.{breadth, output_cells, low_latency_of};
ghost use Rattle.constructions.proofs.LowLawful.{lawful_low_latency};
ghost use Rattle.constructions.proofs.LowLayers.{layered_low_latency};
ghost use Rattle.constructions.proofs.LowAccepted.{accepted_few};

use crate::construction::Construction;
use crate::gates::{Layout, Product, gate, join_cell};
use crate::generated::Generated;
use block::blocks::Block;
use block::table::TruthTable;
use netlist::cell::{Cell, Kind};

const MOST_MASKS: usize = 8;

pub type GhpcLl = Generated<MaskPerArgument>;

// The construction with a mask for each argument of each output.
#[derive(Clone, Copy, Debug)]
pub struct MaskPerArgument;

// How many masks the block of a table asks for.
fn mask_total(table: &TruthTable) -> usize
    ensures { (result ≡ (tabled table.now).m * argument_count (tabled table.now)) × (result ≤ 64) }
{
    table.outputs() * table.arguments()
}

impl Construction for MaskPerArgument {
    ghost block_of = { low_latency_of };

    ghost serves = { λ t. nat_le (t.m * argument_count t) 8 };

    ghost breadth_of = { breadth };

    ghost cells_of = { λ t. output_cells t (cell_gates t) };

    ghost lawful = { lawful_low_latency };

    ghost layered = { layered_low_latency };

    ghost accepted = { accepted_few };

    fn serves(table: &TruthTable) -> bool {
        mask_total(table) <= MOST_MASKS
    }

    fn masks(table: &TruthTable) -> usize {
        mask_total(table)
    }

    fn latency(_table: &TruthTable) -> usize {
        1
    }

    fn breadth(table: &TruthTable) -> usize {
        7 * table.arguments() - 1
    }

    // The products, the two chains that join them, and the register of the chain in domain 0.
    fn output_cell(table: &TruthTable, c: usize, place: usize) -> Cell {
        let at = Layout::of(table, mask_total(table));
        let all = at.arguments;
        let start = at.outputs + c * Self::breadth(table);
        if place < 5 * all {
            let i = place / 5;
            let product = Product {
                output: c,
                argument: i,
                entry: start + 5 * i,
                mask: at.masks + (c * all + i),
                decoded: at.selectors + 2 * i,
            };
            product.cell(
                table,
                place % 5,
                gate(Kind::And, product.decoded, product.mask),
            )
        } else if place < 6 * all - 1 {
            join_cell(start + 3, start + 5 * all, place - 5 * all)
        } else if place < 7 * all - 2 {
            join_cell(start + 4, start + (6 * all - 1), place - (6 * all - 1))
        } else {
            gate(Kind::Reg, start + 7 * all - 3, 0)
        }
    }

    // The register of all products joined in domain 0, all products joined in domain 1.
    fn output(table: &TruthTable, c: usize) -> (u16, u16) {
        let at = Layout::of(table, mask_total(table));
        let end = at.outputs + (c + 1) * Self::breadth(table);
        ((end - 1) as u16, (end - at.arguments - 1) as u16)
    }
}

impl GhpcLl {
    // The block of one bit that passes through.
    pub fn identity() -> GhpcLl
        ensures { ⟦<GhpcLl as Block>⟧.block result ≡ low_latency_of identity_table }
    {
        Generated::of_served(TruthTable::identity())
    }
}
