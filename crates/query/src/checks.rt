// The tests that queries begin with.
ghost use Rattle.std.specs.Prelude.{◌≡◌};
ghost use Rattle.query.specs.Answers.{room_answer, given_answer, bits_answer, wire_answer};
ghost use Rattle.netlist.specs.Circuit.{wire_count};
ghost use Rattle.netlist.specs.Nets.{circuit};

use fault::NetlistFault;
use netlist::netlist::Netlist;
use traverse::walk::masks;

// Whether there is room for a value of each wire.
pub(crate) fn check_room<N: Netlist>(netlist: &N, there: usize) -> Result<(), NetlistFault>
    ensures { result ≡ room_answer (wire_count (circuit (N.net netlist.now))) there }
{
    let needed = netlist.wires();
    if there < needed {
        return Err(NetlistFault::Memory(needed));
    }
    Ok(())
}

// Whether as many values came as settling needs.
pub(crate) fn check_given<N: Netlist>(netlist: &N, came: usize) -> Result<(), NetlistFault>
    ensures { result ≡ given_answer (circuit (N.net netlist.now)) came }
{
    if came != 2 * netlist.inputs() + masks(netlist) {
        return Err(NetlistFault::Given(came));
    }
    Ok(())
}

// Whether all bytes are bits.
pub(crate) fn check_bits(given: &[u8]) -> Result<(), NetlistFault>
    ensures { result ≡ bits_answer 0 given.now }
{
    for (i, b) in given.iter().enumerate() {
        if *b > 1 {
            return Err(NetlistFault::Bit(i));
        }
    }
    Ok(())
}

// Whether the netlist has such a wire.
pub(crate) fn check_wire<N: Netlist>(netlist: &N, wire: usize) -> Result<(), NetlistFault>
    ensures { result ≡ wire_answer (circuit (N.net netlist.now)) wire }
{
    if wire < netlist.wires() {
        return Ok(());
    }
    Err(NetlistFault::Wire(wire))
}
