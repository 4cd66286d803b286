// The page that a program writes.
ghost use Rattle.std.specs.Prelude.{◌≡◌, [], IfOk, string_bytes};

use crate::numbers::Numbers;
use std::alloc::Global;
use std::io;

// Its text so far, and the numbers that all on it is drawn from.
#[derive(Drop)]
pub struct Page {
    pub text: String,
    pub numbers: Numbers,
}

impl Page {
    // An empty page, and the numbers that start at `seed`.
    pub fn new(heap: Global, seed: u64) -> Page
        ensures { string_bytes result.text ≡ [] }
    {
        Page {
            text: String::new(heap),
            numbers: Numbers::new(seed),
        }
    }

    // Prints the text, and empties the page.
    pub fn print(&mut self, rt: &impl Print) -> io::Result<()>
        ensures { IfOk result (λ _. string_bytes self.new.text ≡ []) }
    {
        rt.print(self.text.as_str())?;
        self.text.clear();
        Ok(())
    }
}
