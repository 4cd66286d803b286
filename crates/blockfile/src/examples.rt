// Files worked out by hand.
ghost use Rattle.std.specs.Prelude.{◌≡◌, length};
ghost use Rattle.blockfile.specs.Examples.{examples, Worked};

// How many files were worked out by hand: each is accepted or refused as was found.
pub fn worked_files() -> usize
    ensures count { result ≡ length examples }
    ensures hold { Worked }
{
    18
}
