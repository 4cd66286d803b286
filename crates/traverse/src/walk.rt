// The one traversal: from the first wire to the last, for whatever a wire carries.
ghost use Rattle.std.specs.Prelude.{◌≡◌, ◌-◌, ◌*◌, ◌<◌, ◌≤◌, ◌++◌, length, take, drop, slice_index_or};
ghost use Rattle.netlist.specs.Circuit.{carried, more_fresh, mask_count};
ghost use Rattle.netlist.specs.Cells.{driver, Fits, no_cell};
ghost use Rattle.netlist.specs.Nets.{net_wires, circuit};
ghost use Rattle.traverse.specs.Carrying.{given_values, filled, carried_from};

use netlist::cell::{Cell, Kind};
use netlist::netlist::Netlist;
use value::wire_value::WireValue;

// What a cell makes of the values below it; a mask takes the next of the fresh values, and none past the last.
// The operands of a look-up are read one by one: with their numbers as a slice, counting takes up to 1.6 times as long.
// As a call, which LLVM may make of it without the hint, it copies each cell: settling then takes 1.3 times the instructions.
#[inline(always)]
fn drive<V: WireValue>(x: Cell, below: &[V], fresh: &mut &[V]) -> V
    requires { Fits (length below.now) x }
    ensures value { result ≡ carried (given_values V.ops fresh.old.now) (driver x) 0 below.now }
    ensures fresh { fresh.new.now ≡ drop (more_fresh (driver x) 0) fresh.old.now }
{
    match x.kind {
        Kind::Mask => fresh.split_off_first().copied().unwrap_or(V::none()),
        Kind::Not => below[usize::from(x.a)].invert(),
        Kind::And => below[usize::from(x.a)].both(below[usize::from(x.b)]),
        Kind::Xor => below[usize::from(x.a)].differ(below[usize::from(x.b)]),
        Kind::Reg => below[usize::from(x.a)].register(),
        Kind::Look1 => {
            let a = below[usize::from(x.a)];
            V::look(x.table, 1, a, a, a, a)
        }
        Kind::Look2 => {
            let a = below[usize::from(x.a)];
            let b = below[usize::from(x.b)];
            V::look(x.table, 2, a, b, a, a)
        }
        Kind::Look3 => {
            let a = below[usize::from(x.a)];
            let b = below[usize::from(x.b)];
            let c = below[usize::from(x.c)];
            V::look(x.table, 3, a, b, c, a)
        }
        Kind::Look4 => {
            let a = below[usize::from(x.a)];
            let b = below[usize::from(x.b)];
            let c = below[usize::from(x.c)];
            let d = below[usize::from(x.d)];
            V::look(x.table, 4, a, b, c, d)
        }
    }
}

// The cell of a wire that has one; for crates that know it to have one.
pub fn cell_of<N: Netlist>(netlist: &N, wire: usize) -> Cell
    requires past_shares { 2 * (N.net netlist.now).inputs ≤ wire }
    requires within { wire < net_wires (N.net netlist.now) }
    ensures { result ≡ slice_index_or (N.net netlist.now).cells (wire - 2 * (N.net netlist.now).inputs) no_cell }
{
    netlist.cell(wire).unwrap()
}

// How many of the cells are masks.
pub fn masks<N: Netlist>(netlist: &N) -> usize
    ensures value { result ≡ mask_count (circuit (N.net netlist.now)) }
    ensures few { result ≤ 4096 }
{
    let mut count = 0;
    // With a chain of `filter_map`, `filter` and `count`, settling takes five times as many instructions.
    for wire in 2 * netlist.inputs()..netlist.wires() {
        if matches!(cell_of(netlist, wire).kind, Kind::Mask) {
            count += 1;
        }
    }
    count
}

// The values of the shares.
fn carry_shares<V: WireValue>(shares: usize, given: &[V], out: &mut [V])
    requires { shares ≤ length out.old }
    ensures { out.new ≡ filled shares V.ops.none given.now ++ drop shares out.old }
{
    for (i, v) in out[..shares].iter_mut().enumerate() {
        *v = given.get(i).copied().unwrap_or(V::none());
    }
}

// The values of the cells, behind those of the shares.
fn carry_cells<N: Netlist, V: WireValue>(netlist: &N, given: &[V], out: &mut [V])
    requires room { net_wires (N.net netlist.now) ≤ length out.old }
    requires shares { take (2 * (N.net netlist.now).inputs) out.old ≡ filled (2 * (N.net netlist.now).inputs) V.ops.none given.now }
    ensures { out.new ≡ carried_from V.ops (circuit (N.net netlist.now)) given.now ++ drop (net_wires (N.net netlist.now)) out.old }
{
    let first = 2 * netlist.inputs();
    let mut fresh = &given[first.min(given.len())..];
    // By number, since a wire reads those below it in the memory that is being written.
    for wire in first..netlist.wires() {
        out[wire] = drive(cell_of(netlist, wire), &out[..wire], &mut fresh);
    }
}

// What every wire carries, from a value for each share and then one for each mask; for crates that have made room.
pub fn carry<N: Netlist, V: WireValue>(netlist: &N, given: &[V], out: &mut [V])
    requires { net_wires (N.net netlist.now) ≤ length out.old }
    ensures { out.new ≡ carried_from V.ops (circuit (N.net netlist.now)) given.now ++ drop (net_wires (N.net netlist.now)) out.old }
{
    carry_shares(2 * netlist.inputs(), given, out);
    carry_cells(netlist, given, out);
}
