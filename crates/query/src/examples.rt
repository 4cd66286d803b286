// Netlists worked out by hand.
ghost use Rattle.std.specs.Prelude.{◌≡◌, length};
ghost use Rattle.query.specs.Examples.{examples, AllHold};

// How many small netlists were worked out by hand: on each, settling, probing and counting give what was found.
pub fn worked_examples() -> usize
    ensures count { result ≡ length examples }
    ensures hold { AllHold examples }
{
    8
}
