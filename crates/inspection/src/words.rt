// The words of a question.
ghost use Rattle.std.specs.Prelude.{◌≡◌};
ghost use Rattle.inspection.specs.Words.{typed_bit};

use std::alloc::{AllocError, Global};

// What is asked of a block.
#[derive(Debug, Drop, PartialEq, Eq)]
pub enum Question {
    // all its parts
    List,
    // what its wires settle to, from the bits given
    Settle(Vec<u8>),
    // what a probe on a wire sees
    Probe(usize),
    // its register counts
    Counts,
}

// A bit as a byte; any other character as a byte that is no bit.
pub fn bit_of(c: u8) -> u8
    ensures { result ≡ typed_bit c }
{
    match c {
        b'0' => 0,
        b'1' => 1,
        _ => 2,
    }
}

// The bits of all words, one after the other.
fn bits_of(heap: Global, words: &[String]) -> Result<Vec<u8>, AllocError> {
    words
        .iter()
        .flat_map(|word| word.as_bytes())
        .map(|c| bit_of(*c))
        .collect(heap)
}

// The question that some words ask, if they ask one.
pub fn read_words(heap: Global, words: &[String]) -> Result<Option<Question>, AllocError> {
    let [first, rest @ ..] = words else {
        return Ok(None);
    };
    let asked = match first.as_str() {
        "list" => Some(Question::List),
        "counts" => Some(Question::Counts),
        "settle" => Some(Question::Settle(bits_of(heap, rest)?)),
        "probe" => probed(rest),
        _ => None,
    };
    Ok(asked)
}

// A probe on the wire that the only word names.
fn probed(words: &[String]) -> Option<Question> {
    let [word] = words else {
        return None;
    };
    word.as_str().parse().ok().map(Question::Probe)
}
