// Making a list of cells, and its answers as a netlist.
ghost use Rattle.std.specs.Prelude.{◌≡◌, Decides};
ghost use Rattle.netlist.specs.Nets.{Lawful, net_of, identity_net};
ghost use Rattle.netlist.specs.CellLists.{listed, listed_lawful, Listing};

use crate::cell::Cell;
use crate::cell_list::CellList;
use crate::netlist::{MOST_INPUTS, MOST_WIRES, Netlist};

static NO_CELLS: [Cell; 0] = [];

impl<'a> CellList<'a> {
    // Whether the cells are those of a netlist with this many inputs.
    pub fn check(inputs: usize, cells: &[Cell]) -> bool
        ensures { Decides result (Lawful (net_of inputs cells.now)) }
    {
        if inputs < 1 || inputs > MOST_INPUTS || cells.len() > MOST_WIRES - 2 * inputs {
            return false;
        }
        for (k, cell) in cells.iter().enumerate() {
            if !cell.fits(2 * inputs + k) {
                return false;
            }
        }
        true
    }

    // The netlist of these cells, where they are lawful.
    pub fn try_new(inputs: usize, cells: &'a [Cell]) -> Option<CellList<'a>>
        ensures { Listing (net_of inputs cells.now) result }
    {
        if !CellList::check(inputs, cells) {
            return None;
        }
        Some(CellList { inputs, cells })
    }

    // The netlist of these cells where they are lawful, else one input and no cell.
    pub fn new(inputs: usize, cells: &'a [Cell]) -> CellList<'a>
        ensures lawful { Lawful (net_of inputs cells.now) → listed result ≡ net_of inputs cells.now }
        ensures unlawful { (Lawful (net_of inputs cells.now) → ⊥) → listed result ≡ identity_net }
    {
        CellList::try_new(inputs, cells).unwrap_or(CellList {
            inputs: 1,
            cells: &NO_CELLS,
        })
    }
}

impl Netlist for CellList<'_> {
    ghost net = { listed };

    ghost lawful = { listed_lawful };

    fn inputs(&self) -> usize {
        self.inputs
    }

    fn wires(&self) -> usize {
        2 * self.inputs + self.cells.len()
    }

    fn cell(&self, wire: usize) -> Option<Cell> {
        self.cells.get(wire.checked_sub(2 * self.inputs)?).copied()
    }
}
