// Lines with labels.
ghost use Rattle.std.specs.Prelude.{◌≡◌, List, ℕ, IfOk, Some, string_bytes};
ghost use Rattle.lines.specs.Lines.{labelled_line};

use std::alloc::{AllocError, Global};
use std::fmt::Display;

// A label and what follows it, as one line.
pub fn labelled<T: Display + Drop>(heap: Global, label: &str, told: T) -> Result<String, AllocError>
    ensures { IfOk result (λ s. (text : List ℕ) → T.output told ≡ Some text → string_bytes s ≡ labelled_line label.now text) }
{
    format!(in heap; "{label}: {told}\n")
}

#[cfg(test)]
mod tests {
    use super::*;
    use std::test::Fail;

    #[test]
    fn labels_a_number(rt: HostRuntime) -> Result<(), Fail> {
        let line = labelled(rt.alloc(), "wires", 38u16)?;
        assert_eq!(rt; line.as_str(), "wires: 38\n");
        Ok(())
    }
}
