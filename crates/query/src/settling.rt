// What every wire settles to.
ghost use Rattle.std.specs.Prelude.{◌≡◌, length};
ghost use Rattle.netlist.specs.Nets.{circuit};
ghost use Rattle.query.specs.Answers.{settle_answer, settled_bytes, rewritten};

use crate::checks::{check_bits, check_given, check_room};
use fault::NetlistFault;
use netlist::netlist::Netlist;
use traverse::walk::carry;

// From a byte for each share and then one for each mask, in wire order: a byte for each wire.
pub fn settle<N: Netlist>(netlist: &N, given: &[u8], out: &mut [u8]) -> Result<(), NetlistFault>
    ensures answer { result ≡ settle_answer (circuit (N.net netlist.now)) given.now (length out.old) }
    ensures after { out.new ≡ rewritten result (settled_bytes (circuit (N.net netlist.now)) given.now) out.old }
{
    check_room(netlist, out.len())?;
    check_given(netlist, given.len())?;
    check_bits(given)?;
    carry(netlist, given, out);
    Ok(())
}
