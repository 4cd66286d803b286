// 64 settlings side by side.
ghost use Rattle.std.specs.Prelude.{◌≡◌, length};
ghost use Rattle.netlist.specs.Nets.{circuit};
ghost use Rattle.query.specs.Answers.{lanes_answer, LanesAfter};

use crate::checks::{check_given, check_room};
use fault::NetlistFault;
use netlist::netlist::Netlist;
use traverse::walk::carry;

// From a word for each share and then one for each mask, in wire order: a word for each wire, whose lanes are settled each by itself.
pub fn settle_lanes<N: Netlist>(
    netlist: &N,
    given: &[u64],
    out: &mut [u64],
) -> Result<(), NetlistFault>
    ensures answer { result ≡ lanes_answer (circuit (N.net netlist.now)) (length given.now) (length out.old) }
    ensures after { LanesAfter result (circuit (N.net netlist.now)) given.now out.old out.new }
{
    check_room(netlist, out.len())?;
    check_given(netlist, given.len())?;
    carry(netlist, given, out);
    Ok(())
}
