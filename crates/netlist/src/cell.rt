// The cells that drive wires.
ghost use Rattle.std.specs.Prelude.{◌≡◌, Decides, Some};
ghost use Rattle.netlist.specs.Cells.{arity, table_limit, operand_limit, operand_list, kind_number, decoded, gate_of, Fits};
ghost use Rattle.netlist.specs.Texts.{kind_text, unknown_kind_text, cell_text};

use std::error::Error;
use std::fmt;

// A fresh bit, a gate, a register, or a look-up of one to four operands.
#[derive(Clone, Copy, Debug, PartialEq, Eq)]
pub enum Kind {
    Mask,
    Not,
    And,
    Xor,
    Reg,
    Look1,
    Look2,
    Look3,
    Look4,
}

// A number that no kind of cell has.
#[derive(Clone, Copy, Debug, PartialEq, Eq)]
pub struct UnknownKind(pub u8);

// Operands are wire numbers; in a cell that may drive a wire, the parts that the kind does not use are zero.
// Four fields and no array: in the definitions they are plain numbers, with no length to keep.
#[derive(Clone, Copy, Debug, PartialEq, Eq)]
pub struct Cell {
    pub kind: Kind,
    pub table: u16,
    pub a: u16,
    pub b: u16,
    pub c: u16,
    pub d: u16,
}

impl Kind {
    // How many operands a cell of this kind has.
    pub fn operands(self) -> u8
        ensures { result ≡ arity self }
    {
        match self {
            Kind::Mask => 0,
            Kind::Not | Kind::Reg | Kind::Look1 => 1,
            Kind::And | Kind::Xor | Kind::Look2 => 2,
            Kind::Look3 => 3,
            Kind::Look4 => 4,
        }
    }

    // What the table of a cell of this kind stays below.
    pub fn table_limit(self) -> u32
        ensures { result ≡ table_limit self }
    {
        match self {
            Kind::Look1 => 4,
            Kind::Look2 => 16,
            Kind::Look3 => 256,
            Kind::Look4 => 65536,
            _ => 1,
        }
    }

    // What operand number `t` of a cell of this kind stays below, on wire `wire`.
    pub fn operand_limit(self, wire: usize, t: u8) -> usize
        ensures { result ≡ operand_limit wire t (arity self) }
    {
        if t < self.operands() { wire } else { 1 }
    }
}

// A kind by its number.
impl From<Kind> for u8 {
    ghost from_gives = { λ kind r. r ≡ kind_number kind };

    fn from(kind: Kind) -> u8 {
        kind as u8
    }
}

impl TryFrom<u8> for Kind {
    type Error = UnknownKind;

    ghost try_from_gives = { λ number r. r ≡ decoded number };

    fn try_from(number: u8) -> Result<Kind, UnknownKind> {
        match number {
            0 => Ok(Kind::Mask),
            1 => Ok(Kind::Not),
            2 => Ok(Kind::And),
            3 => Ok(Kind::Xor),
            4 => Ok(Kind::Reg),
            5 => Ok(Kind::Look1),
            6 => Ok(Kind::Look2),
            7 => Ok(Kind::Look3),
            8 => Ok(Kind::Look4),
            _ => Err(UnknownKind(number)),
        }
    }
}

impl fmt::Display for Kind {
    ghost output = { λ kind. Some (kind_text kind) };

    fn fmt<W: fmt::Write>(&self, f: &mut fmt::Formatter<W>) -> fmt::Result {
        f.write_str(match self {
            Kind::Mask => "mask",
            Kind::Not => "not",
            Kind::And => "and",
            Kind::Xor => "xor",
            Kind::Reg => "reg",
            Kind::Look1 | Kind::Look2 | Kind::Look3 | Kind::Look4 => "look",
        })
    }
}

impl fmt::Display for UnknownKind {
    ghost output = { λ u. Some (unknown_kind_text u) };

    fn fmt<W: fmt::Write>(&self, f: &mut fmt::Formatter<W>) -> fmt::Result {
        write!(f, "no kind of cell has the number {}", self.0)
    }
}

impl Error for UnknownKind {}

impl Cell {
    // A cell of this kind with these first two operands; its table and the other two are zero.
    pub fn gate(kind: Kind, a: u16, b: u16) -> Cell
        ensures { result ≡ gate_of kind a b }
    {
        Cell {
            kind,
            table: 0,
            a,
            b,
            c: 0,
            d: 0,
        }
    }

    // Its four operands as they stand, used or not; in a cell that may drive a wire, the unused ones are zero.
    pub fn operands(&self) -> [u16; 4]
        ensures { result ≡ operand_list self.now }
    {
        [self.a, self.b, self.c, self.d]
    }

    // Whether the cell may drive the wire: operands below it, unused parts zero.
    pub fn fits(&self, wire: usize) -> bool
        ensures { Decides result (Fits wire self.now) }
    {
        u32::from(self.table) < self.kind.table_limit()
            && usize::from(self.a) < self.kind.operand_limit(wire, 0)
            && usize::from(self.b) < self.kind.operand_limit(wire, 1)
            && usize::from(self.c) < self.kind.operand_limit(wire, 2)
            && usize::from(self.d) < self.kind.operand_limit(wire, 3)
    }
}

// The kind, the table of a look-up in hexadecimal, and the operands in use.
impl fmt::Display for Cell {
    ghost output = { λ x. Some (cell_text x) };

    fn fmt<W: fmt::Write>(&self, f: &mut fmt::Formatter<W>) -> fmt::Result {
        write!(f, "{}", self.kind)?;
        if self.kind.table_limit() > 1 {
            write!(f, " {:x}", self.table)?;
        }
        let operands = self.operands();
        for operand in &operands[..usize::from(self.kind.operands())] {
            write!(f, " {operand}")?;
        }
        Ok(())
    }
}
