// The rules that a block is judged by, and the verdict.
#![tactic(auto)]

ghost use Rattle.std.specs.Prelude.{◌≡◌, length, Some};
ghost use Rattle.verdict.specs.Examples.{examples, VerdictsAsListed};
ghost use Rattle.verdict.specs.Theorems.{AcceptsByRules, RefusesByRules, TellsNinthMask};
ghost use Rattle.verdict.specs.Verdict.{acceptance_line};

use std::fmt;

// What is told of a block that meets all rules: how many wires and MASK cells it has, and its latency.
#[derive(Clone, Copy, Debug, PartialEq, Eq)]
pub struct Acceptance {
    pub wires: usize,
    pub masks: usize,
    pub latency: usize,
}

// The line of an acceptance, all numbers in decimal.
impl fmt::Display for Acceptance {
    ghost output = { λ a. Some (acceptance_line a) };

    fn fmt<W: fmt::Write>(&self, f: &mut fmt::Formatter<W>) -> fmt::Result {
        let wires = self.wires;
        let masks = self.masks;
        let latency = self.latency;
        write!(
            f,
            "accepted, {wires} wires, {masks} masks, latency {latency}"
        )
    }
}

// A block is accepted just if it meets all rules, and refused with the first fault, in the order of the verdict.
pub fn verdict_follows_rules()
    ensures accepts { AcceptsByRules }
    ensures refuses { RefusesByRules }
    ensures ninth { TellsNinthMask }
{}

// How many worked examples there are, each with the verdict that is listed.
pub fn worked_examples() -> usize
    ensures number { result ≡ length examples }
    ensures verdicts { VerdictsAsListed }
{
    8
}
