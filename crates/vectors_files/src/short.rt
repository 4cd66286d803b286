// All strings of up to two bytes, and some of three.
use blockfile::checking::check;
use fault::Fault;
use std::alloc::AllocError;
use std::fmt::Write;
use std::num::Wrapping;

// How many strings of one length were accepted and refused, and a sum over their verdicts.
#[derive(Drop, Default)]
struct Tally {
    accepted: Wrapping<u64>,
    refused: Wrapping<u64>,
    sum: Wrapping<u64>,
}

impl Tally {
    // One string more.
    fn take(&mut self, bytes: &[u8]) {
        let index = (self.accepted + self.refused).0;
        self.sum += Wrapping(index % 1000);
        match check(bytes) {
            Ok(()) => self.accepted += Wrapping(1),
            Err(fault) => {
                self.refused += Wrapping(1);
                self.sum += Wrapping(u64::from(fault.cause()) * 31);
                self.sum += Wrapping(fault.place() as u64) * Wrapping(7);
            }
        }
    }

    fn write_line(&self, text: &mut String, length: usize) -> Result<(), AllocError> {
        let accepted = self.accepted.0;
        let refused = self.refused.0;
        let sum = self.sum.0;
        writeln!(
            text,
            "length {length} accepted {accepted} refused {refused} sum {sum}"
        )
    }
}

fn write_none(text: &mut String) -> Result<(), AllocError> {
    let mut none = Tally::default();
    none.take(&[]);
    none.write_line(text, 0)
}

fn write_one(text: &mut String) -> Result<(), AllocError> {
    let mut one = Tally::default();
    for b in 0..=u8::MAX {
        one.take(&[b]);
    }
    one.write_line(text, 1)
}

fn write_two(text: &mut String) -> Result<(), AllocError> {
    let mut two = Tally::default();
    for pair in 0..=u16::MAX {
        two.take(&pair.to_be_bytes());
    }
    two.write_line(text, 2)
}

fn is_chosen(b: u8) -> bool {
    b < 5 || b % 5 == 0
}

// The strings that begin with a byte below 6 and go on with two that are chosen.
fn write_three(text: &mut String) -> Result<(), AllocError> {
    let mut three = Tally::default();
    for triple in 0..6u32 << 16 {
        let [_, first, second, third] = triple.to_be_bytes();
        if is_chosen(second) && is_chosen(third) {
            three.take(&[first, second, third]);
        }
    }
    three.write_line(text, 3)
}

pub fn write_short(text: &mut String) -> Result<(), AllocError> {
    write_none(text)?;
    write_one(text)?;
    write_two(text)?;
    write_three(text)
}
