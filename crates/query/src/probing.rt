// What a probe sees.
ghost use Rattle.std.specs.Prelude.{◌≡◌, ◌<◌, length};
ghost use Rattle.netlist.specs.Cells.{driver, Fits};
ghost use Rattle.netlist.specs.Nets.{circuit, net_wires};
ghost use Rattle.isolation.specs.Agreeing.{Determines};
ghost use Rattle.query.specs.Answers.{probe_answer, probe_bytes, rewritten};
ghost use Rattle.query.specs.Marks.{handed_on};

use crate::checks::{check_room, check_wire};
use fault::NetlistFault;
use netlist::cell::{Cell, Kind};
use netlist::netlist::Netlist;
use traverse::walk::cell_of;

// Hands the mark of a look-up on to its operands.
fn hand_on(x: Cell, wire: usize, marks: &mut [u8])
    requires within { wire < length marks.old }
    requires fits { Fits wire x }
    ensures { marks.new ≡ handed_on (driver x) wire marks.old }
{
    if marks[wire] != 1 || matches!(x.kind, Kind::Mask | Kind::Reg) {
        return;
    }
    marks[wire] = 0;
    let operands = x.operands();
    for operand in &operands[..usize::from(x.kind.operands())] {
        marks[usize::from(*operand)] = 1;
    }
}

// Marks what a probe on the wire sees.
fn mark_seen<N: Netlist>(netlist: &N, wire: usize, marks: &mut [u8])
    requires within { wire < net_wires (N.net netlist.now) }
    requires long { length marks.old ≡ net_wires (N.net netlist.now) }
    ensures { marks.new ≡ probe_bytes (circuit (N.net netlist.now)) wire }
{
    marks.fill(0);
    marks[wire] = 1;
    let first = 2 * netlist.inputs();
    // By number, since a netlist answers by number.
    for w in (first..netlist.wires()).rev() {
        hand_on(cell_of(netlist, w), w, marks);
    }
}

// A byte for each wire, 1 where a probe on `wire` sees it. What it sees determines what `wire` settles to.
pub fn probe<N: Netlist>(netlist: &N, wire: usize, out: &mut [u8]) -> Result<(), NetlistFault>
    ensures answer { result ≡ probe_answer (circuit (N.net netlist.now)) wire (length out.old) }
    ensures after { out.new ≡ rewritten result (probe_bytes (circuit (N.net netlist.now)) wire) out.old }
    ensures determines { Determines (circuit (N.net netlist.now)) wire }
{
    check_room(netlist, out.len())?;
    check_wire(netlist, wire)?;
    mark_seen(netlist, wire, &mut out[0..netlist.wires()]);
    Ok(())
}
