// The block that a construction makes of a table. It stores no cell: each answer is worked out from the wire's number.
ghost use Rattle.std.specs.Prelude.{◌≡◌, ⊤, ◌+◌, ◌*◌, true, false, Ok, refl, MatchResult};
ghost use Rattle.netlist.specs.Circuit.{wire_count, mask_count};
ghost use Rattle.block.specs.Blocks.{net_part};
ghost use Rattle.block.specs.Tables.{tabled, tabled_lawful};
ghost use Rattle.verdict.specs.Rules.{circuit_of, Accepted, latency};
ghost use Rattle.verdict.specs.Verdict.{verdict};
ghost use Rattle.netlist.specs.Nets.{cell_at};
ghost use Rattle.fault.specs.declared.NetlistFault.TheVariants.{MaskLimit};
ghost use Rattle.ghpc.specs.Serving.{served_answer};
ghost use Rattle.constructions.specs.Layers.{first_selector, first_output};

use crate::construction::Construction;
use crate::gates::{Layout, gate, selector_cell};
use block::blocks::Block;
use block::table::TruthTable;
use fault::NetlistFault;
use netlist::cell::{Cell, Kind};
use netlist::netlist::Netlist;
use std::alloc::AllocError;
use std::marker::PhantomData;
use verdict::Acceptance;

// The construction serves the table.
pub struct Generated<C: Construction> {
    table: TruthTable,
    by: PhantomData<C>,
    ghost served: { C.serves (tabled table) ≡ true },
}

// By hand, since no derive goes over the ghost field of a struct with a parameter.
impl<C: Construction> Clone for Generated<C> {
    ghost is_clone = { λ x y. y ≡ x };

    ghost is_infallible = { λ x. ⊤ };

    fn clone(&self) -> Result<Generated<C>, AllocError> {
        Ok(*self)
    }
}

impl<C: Construction> Copy for Generated<C> {}

impl<C: Construction> Generated<C> {
    // The block of a table that the construction serves.
    pub(crate) fn of_served(table: TruthTable) -> Generated<C>
        requires { C.serves (tabled table) ≡ true }
        ensures { tabled result.table ≡ tabled table }
    {
        Generated {
            table,
            by: PhantomData,
        }
    }

    // The block of a table; one that asks for too many masks is refused.
    pub fn try_new(table: TruthTable) -> Result<Generated<C>, NetlistFault>
        ensures { MatchResult result
            (λ x. (C.serves (tabled table) ≡ true) × (tabled x.table ≡ tabled table))
            (λ fault. (C.serves (tabled table) ≡ false) × (fault ≡ MaskLimit)) }
    {
        if C::serves(&table) {
            Ok(Generated::of_served(table))
        } else {
            Err(NetlistFault::MaskLimit)
        }
    }

    // Makes this the block of a table; one that asks for too many masks is refused, and leaves the block as it was.
    pub fn fill(&mut self, table: TruthTable) -> Result<(), NetlistFault>
        ensures answer { result ≡ served_answer (C.serves (tabled table)) }
        ensures after { MatchResult result (λ _. tabled self.new.table ≡ tabled table) (λ _. self.new ≡ self.old) }
    {
        *self = Generated::try_new(table)?;
        Ok(())
    }

    // Where its parts stand.
    fn layout(&self) -> Layout
        ensures masks { result.masks ≡ 2 * (tabled self.now.table).n }
        ensures selectors { result.selectors ≡ first_selector (tabled self.now.table) (mask_count (circuit_of (C.block_of (tabled self.now.table)))) }
        ensures outputs { result.outputs ≡ first_output (tabled self.now.table) (mask_count (circuit_of (C.block_of (tabled self.now.table)))) }
    {
        Layout::of(&self.table, C::masks(&self.table))
    }

    // The cell of wire `k` after the selectors.
    fn output_cell(&self, k: usize) -> Option<Cell>
        ensures { result ≡ cell_at (net_part (C.block_of (tabled self.now.table))) (first_output (tabled self.now.table) (mask_count (circuit_of (C.block_of (tabled self.now.table)))) + k) }
    {
        let breadth = C::breadth(&self.table);
        let c = k / breadth;
        if c < self.table.outputs() {
            Some(C::output_cell(&self.table, c, k % breadth))
        } else {
            None
        }
    }

    // How large the block is; it is accepted, whatever its table.
    pub fn report(&self) -> Acceptance
        ensures verdict { verdict (C.block_of (tabled self.now.table)) ≡ Ok result }
        ensures wires { result.wires ≡ wire_count (circuit_of (C.block_of (tabled self.now.table))) }
        ensures masks { result.masks ≡ mask_count (circuit_of (C.block_of (tabled self.now.table))) }
        ensures latency { result.latency ≡ latency (C.block_of (tabled self.now.table)) }
        ensures accepted { Accepted (C.block_of (tabled self.now.table)) }
    {
        Acceptance {
            wires: self.wires(),
            masks: C::masks(&self.table),
            latency: C::latency(&self.table),
        }
    }
}

impl<C: Construction> Netlist for Generated<C> {
    ghost net = { λ x. net_part (C.block_of (tabled x.table)) };

    ghost lawful = { λ x. (C.lawful (tabled x.table) (tabled_lawful x.table)).net };

    fn inputs(&self) -> usize {
        self.table.inputs()
    }

    fn wires(&self) -> usize {
        self.layout().outputs + self.table.outputs() * C::breadth(&self.table)
    }

    fn cell(&self, wire: usize) -> Option<Cell> {
        let at = self.layout();
        if wire < at.masks {
            None
        } else if wire < at.selectors {
            Some(gate(Kind::Mask, 0, 0))
        } else if wire < at.outputs {
            Some(selector_cell(&self.table, at.selectors, wire - at.selectors))
        } else {
            self.output_cell(wire - at.outputs)
        }
    }
}

impl<C: Construction> Block for Generated<C> {
    ghost block = { λ x. C.block_of (tabled x.table) };

    ghost part = { λ x. refl };

    ghost whole = { λ x. C.lawful (tabled x.table) (tabled_lawful x.table) };

    fn outputs(&self) -> usize {
        self.table.outputs()
    }

    fn entry(&self, argument: usize) -> Option<u8> {
        self.table.entry(argument)
    }

    fn output(&self, c: usize) -> Option<(u16, u16)> {
        if c < self.table.outputs() {
            Some(C::output(&self.table, c))
        } else {
            None
        }
    }
}
