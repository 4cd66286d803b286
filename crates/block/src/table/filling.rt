// Filling a table, and reading it.
ghost use Rattle.std.specs.Prelude.{◌≡◌, ℕ, ◌-◌, ◌^◌, ◌<◌, ◌≤◌, ◌++◌, length, replicate};
ghost use Rattle.netlist.specs.Nets.{nth};
ghost use Rattle.block.specs.Blocks.{output_at};
ghost use Rattle.block.specs.Tables.{tabled, table_of, entries_answer, table_answer, Makes, Filled, identity_table};

use crate::table::TruthTable;
use fault::NetlistFault;

fn power(n: usize) -> usize
    requires { n ≤ 4 }
    ensures { (result ≡ 2 ^ n) × (result ≤ 16) }
{
    1 << n
}

// Whether all entries are below the limit.
fn check_entries(limit: usize, entries: &[u8]) -> Result<(), NetlistFault>
    ensures { result ≡ entries_answer limit 0 entries.now }
{
    for (i, e) in entries.iter().enumerate() {
        if usize::from(*e) >= limit {
            return Err(NetlistFault::TableEntry(i));
        }
    }
    Ok(())
}

// The entries, and zero past them.
fn padded(entries: &[u8]) -> [u8; 16]
    requires { length entries.now ≤ 16 }
    ensures { result ≡ entries.now ++ replicate (16 - length entries.now) 0 }
{
    let mut all = [0u8; 16];
    all[..entries.len()].copy_from_slice(entries);
    all
}

impl TruthTable {
    // The table of one bit that passes through.
    pub fn identity() -> TruthTable
        ensures { tabled result ≡ identity_table }
    {
        TruthTable {
            n: 1,
            m: 1,
            entries: [0, 1, 0, 0, 0, 0, 0, 0, 0, 0, 0, 0, 0, 0, 0, 0],
        }
    }

    // The table of these numbers and entries, where it is lawful.
    pub fn try_new(n: usize, m: usize, entries: &[u8]) -> Result<TruthTable, NetlistFault>
        ensures { Makes result n m entries.now }
    {
        if !(1..=4).contains(&n) || !(1..=4).contains(&m) || entries.len() != power(n) {
            return Err(NetlistFault::TableSize);
        }
        check_entries(power(m), entries)?;
        Ok(TruthTable {
            n,
            m,
            entries: padded(entries),
        })
    }

    // Fills the table whole, or leaves it as it was.
    pub fn fill(&mut self, n: usize, m: usize, entries: &[u8]) -> Result<(), NetlistFault>
        ensures answer { result ≡ table_answer n m entries.now }
        ensures after { Filled result n m entries.now self.old self.new }
    {
        *self = TruthTable::try_new(n, m, entries)?;
        Ok(())
    }

    // How many arguments there are.
    pub fn arguments(&self) -> usize
        ensures count { result ≡ 2 ^ (tabled self.now).n }
        ensures some { 2 ≤ result }
        ensures few { result ≤ 16 }
    {
        power(self.n)
    }

    // How many input bits there are.
    pub fn inputs(&self) -> usize
        ensures { result ≡ (tabled self.now).n }
    {
        self.n
    }

    // How many output bits there are.
    pub fn outputs(&self) -> usize
        ensures { result ≡ (tabled self.now).m }
    {
        self.m
    }

    // The entry at an argument, and none past the last.
    pub fn entry(&self, argument: usize) -> Option<u8>
        ensures { result ≡ nth (tabled self.now).entries argument }
    {
        self.entries[..power(self.n)].get(argument).copied()
    }

    // Output `c` at an argument; zero past the last output and the last argument.
    pub fn value(&self, c: usize, argument: usize) -> bool
        ensures { result ≡ output_at (tabled self.now) c argument }
    {
        match self.entry(argument) {
            Some(entry) if c < 8 => (entry >> c) % 2 == 1,
            _ => false,
        }
    }
}
