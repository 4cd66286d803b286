// Why something was refused: a cause, the layer that met it, and a place.
#![tactic(auto)]

ghost use Rattle.std.specs.Prelude.{◌≡◌, Some};
ghost use Rattle.fault.specs.declared.NetlistFault.TheVariants.{Field};
ghost use Rattle.fault.specs.declared.Report.{Report};
ghost use Rattle.fault.specs.Faults.{field_report, netlist_report, refusal_line};

use std::error::Error;
use std::fmt;

// What a refusal tells: all that a user is shown of it.
#[derive(Clone, Copy, Debug, PartialEq, Eq)]
pub struct Report {
    pub cause: u8,
    pub layer: u8,
    pub place: usize,
}

// A file that its writer has to mend; each holds the place in the file.
#[derive(Clone, Copy, Debug, PartialEq, Eq)]
pub enum FieldFault {
    // the file ends too early
    Cut(usize),
    // a tag that is not due
    Tag(usize),
    // a wrong length
    Length(usize),
    // a value out of bounds, or an unused part that is not zero
    Value(usize),
    // bytes after the last field
    Trailing(usize),
}

// A fault of a field, or one of a table, a block, a query or the memory handed over.
#[derive(Clone, Copy, Debug, PartialEq, Eq)]
pub enum NetlistFault {
    Field(FieldFault),
    // a table whose sizes are out of bounds, or with a wrong number of entries
    TableSize,
    // a table's entry that has too many bits
    TableEntry(usize),
    // a table that would need too many masks
    MaskLimit,
    // a block with more than 512 wires
    BlockWires,
    // the wire of a block's ninth mask
    BlockMasks(usize),
    // an output that does not recombine
    Recombination(usize),
    // a probe or a bundle of more than 64 wires
    Breadth(usize),
    // a probe or a bundle that is not clean
    Leak(usize),
    // a wire past the last
    Wire(usize),
    // how many bytes came where settling needs another number
    Given(usize),
    // a byte that is no bit
    Bit(usize),
    // how much memory is needed
    Memory(usize),
}

// The line of a refusal, all numbers in decimal.
impl fmt::Display for Report {
    ghost output = { λ r. Some (refusal_line r) };

    fn fmt<W: fmt::Write>(&self, f: &mut fmt::Formatter<W>) -> fmt::Result {
        let cause = self.cause;
        let layer = self.layer;
        let place = self.place;
        write!(f, "refused {cause} layer {layer} place {place}")
    }
}

// What every fault tells.
pub trait Fault {
    ghost told: { Self → Report };

    fn report(&self) -> Report
        ensures { result ≡ told self.now };

    fn cause(&self) -> u8
        ensures { result ≡ (told self.now).cause }
    {
        self.report().cause
    }

    fn layer(&self) -> u8
        ensures { result ≡ (told self.now).layer }
    {
        self.report().layer
    }

    fn place(&self) -> usize
        ensures { result ≡ (told self.now).place }
    {
        self.report().place
    }
}

impl Fault for FieldFault {
    ghost told = { field_report };

    fn report(&self) -> Report {
        let (cause, place) = match self {
            FieldFault::Cut(place) => (4, *place),
            FieldFault::Tag(place) => (5, *place),
            FieldFault::Length(place) => (6, *place),
            FieldFault::Value(place) => (7, *place),
            FieldFault::Trailing(place) => (8, *place),
        };
        Report {
            cause,
            layer: 1,
            place,
        }
    }
}

impl Fault for NetlistFault {
    ghost told = { netlist_report };

    fn report(&self) -> Report {
        let (cause, place) = match self {
            NetlistFault::Field(fault) => return fault.report(),
            NetlistFault::TableSize => (1, 0),
            NetlistFault::TableEntry(place) => (2, *place),
            NetlistFault::MaskLimit => (3, 0),
            NetlistFault::BlockWires => (9, 512),
            NetlistFault::BlockMasks(place) => (9, *place),
            NetlistFault::Recombination(place) => (10, *place),
            NetlistFault::Breadth(place) => (11, *place),
            NetlistFault::Leak(place) => (12, *place),
            NetlistFault::Wire(place) => (17, *place),
            NetlistFault::Given(place) => (18, *place),
            NetlistFault::Bit(place) => (19, *place),
            NetlistFault::Memory(place) => (20, *place),
        };
        Report {
            cause,
            layer: 2,
            place,
        }
    }
}

impl From<FieldFault> for NetlistFault {
    ghost from_gives = { λ f r. r ≡ Field f };

    fn from(f: FieldFault) -> NetlistFault {
        NetlistFault::Field(f)
    }
}

impl fmt::Display for FieldFault {
    ghost output = { λ f. Some (refusal_line (field_report f)) };

    fn fmt<W: fmt::Write>(&self, f: &mut fmt::Formatter<W>) -> fmt::Result {
        FieldFault::report(self).fmt(f)
    }
}

impl fmt::Display for NetlistFault {
    ghost output = { λ f. Some (refusal_line (netlist_report f)) };

    fn fmt<W: fmt::Write>(&self, f: &mut fmt::Formatter<W>) -> fmt::Result {
        NetlistFault::report(self).fmt(f)
    }
}

impl Error for FieldFault {}

impl Error for NetlistFault {}
