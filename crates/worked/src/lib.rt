// Blocks worked out by hand.
#![tactic(auto)]

ghost use Rattle.std.specs.Prelude.{◌≡◌, length};
ghost use Rattle.std.specs.List.{AllByRecursion};
ghost use Rattle.worked.specs.Examples.{examples, Holds};

// How many claims on blocks were worked out by hand, each of which holds.
pub fn worked_blocks() -> usize
    ensures number { result ≡ length examples }
    ensures hold { AllByRecursion Holds examples }
{
    18
}
