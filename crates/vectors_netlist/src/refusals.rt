// Queries that are refused, and leave their buffers as they were.
use crate::buffer::{BYTE_FILLER, COUNT_FILLER, EXTRA, is_kept_from, kept_or_changed};
use anyhow::Context;
use draw::bytes::with_byte;
use draw::page::Page;
use fault::NetlistFault;
use netlist::cell_list::CellList;
use netlist::netlist::Netlist;
use query::counting::count;
use query::probing::probe;
use query::settling::settle;
use std::alloc::AllocError;
use std::fmt::Write;

// Where refusals are written, the netlist that is asked, and whether all buffers so far were kept.
#[derive(Drop)]
struct Refusals<'a> {
    page: &'a mut Page,
    net: CellList<'a>,
    kept: bool,
}

impl Refusals<'_> {
    // Writes the answer to a query with a buffer of `len` elements.
    fn write<T, Q>(
        &mut self,
        label: &str,
        len: usize,
        filler: T,
        query: Q,
    ) -> Result<(), AllocError>
    where
        T: Clone + Copy + PartialEq,
        Q: FnOnce(&mut [T]) -> Result<(), NetlistFault>,
        requires { Q.IsAlwaysCallable query }
    {
        let mut buffer = vec![in *self.page.text.allocator(); filler; len]?;
        match query(&mut buffer) {
            Err(fault) => writeln!(self.page.text, "{label} {fault}")?,
            Ok(()) => writeln!(self.page.text, "{label} accepted")?,
        }
        self.kept &= is_kept_from(&buffer, 0, &filler);
        Ok(())
    }

    fn settle(&mut self, label: &str, len: usize, given: &[u8]) -> Result<(), AllocError> {
        let net = self.net;
        self.write(label, len, BYTE_FILLER, |out| settle(&net, given, out))
    }

    fn probe(&mut self, label: &str, len: usize, wire: usize) -> Result<(), AllocError> {
        let net = self.net;
        self.write(label, len, BYTE_FILLER, |out| probe(&net, wire, out))
    }

    fn count(&mut self, label: &str, len: usize) -> Result<(), AllocError> {
        let net = self.net;
        self.write(label, len, COUNT_FILLER, |out| count(&net, out))
    }

    // Settlings with too little memory, or of bytes that are too few or too many. `given` are bytes that settling accepts.
    fn settle_lengths(&mut self, given: &[u8]) -> anyhow::Result<()> {
        let heap = *self.page.text.allocator();
        let net = self.net;
        let wires = net.wires();
        let (_, few) = given.split_last().context("no bytes were given")?;
        self.settle("short-settle", wires - 1, given)?;
        self.settle("short-first", wires - 1, &with_byte(heap, few, 0, 2)?)?;
        self.settle("few-bytes", wires + EXTRA, few)?;
        let mut many = given.to_vec(heap)?;
        many.extend_from_slice(&[9; 3])?;
        self.settle("many-bytes", wires + EXTRA, &many)?;
        Ok(())
    }

    // Settlings of bytes that are no bits: the one at `index`, and the first as well.
    fn settle_large(&mut self, given: &[u8], index: usize, value: u8) -> anyhow::Result<()> {
        let heap = *self.page.text.allocator();
        let net = self.net;
        let ample = net.wires() + EXTRA;
        let large = with_byte(heap, given, index, value)?;
        self.settle("large-byte", ample, &large)?;
        self.settle("two-large", ample, &with_byte(heap, &large, 0, 255)?)?;
        Ok(())
    }

    // Probes past the last wire, and queries with too little memory.
    fn probe_far(&mut self, far: usize) -> anyhow::Result<()> {
        let net = self.net;
        let wires = net.wires();
        self.probe("far-wire", wires + EXTRA, far)?;
        self.probe("largest-wire", wires + EXTRA, usize::MAX)?;
        self.probe("short-probe", wires - 1, far)?;
        self.count("short-count", wires - 1)?;
        Ok(())
    }
}

// Writes the refusals, and whether all their buffers were kept. `given` are bytes that settling accepts.
pub fn write_refusals(page: &mut Page, net: CellList<'_>, given: &[u8]) -> anyhow::Result<()> {
    let index = page.numbers.below(given.len());
    let value = 2 + page.numbers.below(254) as u8;
    let far = net.wires() + page.numbers.below(100_000);
    let mut refusals = Refusals {
        page,
        net,
        kept: true,
    };
    refusals.settle_lengths(given)?;
    refusals.settle_large(given, index, value)?;
    refusals.probe_far(far)?;
    let kept = kept_or_changed(refusals.kept);
    writeln!(page.text, "buffers {kept}")?;
    Ok(())
}
