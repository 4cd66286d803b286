// How many registers lie before each wire.
ghost use Rattle.std.specs.Prelude.{◌≡◌, length};
ghost use Rattle.netlist.specs.Circuit.{wire_count, register_counts};
ghost use Rattle.netlist.specs.Nets.{circuit};
ghost use Rattle.query.specs.Answers.{room_answer, rewritten};

use crate::checks::check_room;
use fault::NetlistFault;
use netlist::netlist::Netlist;
use traverse::walk::carry;

// A count for each wire.
pub fn count<N: Netlist>(netlist: &N, out: &mut [u16]) -> Result<(), NetlistFault>
    ensures answer { result ≡ room_answer (wire_count (circuit (N.net netlist.now))) (length out.old) }
    ensures after { out.new ≡ rewritten result (register_counts (circuit (N.net netlist.now))) out.old }
{
    check_room(netlist, out.len())?;
    carry(netlist, &[], out);
    Ok(())
}
