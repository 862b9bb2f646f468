//! What the inputs are.
#![tactic(auto)]

ghost use Rattle.std.specs.Prelude.{◌≡◌, ℕ, List, Option, None, IfOk, OnErr};
ghost use Rattle.std.specs.Option.{option_map};
ghost use Rattle.dump_io.specs.input.Again.{IsReadAgain};

use std::alloc::{AllocError, Global};
use std::io;
use std::io::Read;

/// Opens inputs by their names, and tells what goes wrong with them.
pub trait Inputs {
    /// An input that is open.
    type Input: Read + Drop;

    // The bytes of the input of this name, if they are known. Such an input can be opened.
    ghost bytes_of: { Self → List ℕ → Option (List ℕ) } = { λ _ _. None };

    /// Opens an input.
    fn open(&self, name: &str) -> io::Result<Self::Input>
        ensures bytes { IfOk result (λ input. Self.Input.remaining input ≡ bytes_of self.now name.now) }
        ensures known { OnErr result (bytes_of self.now name.now ≡ None) };

    /// Reads `len` bytes of an input again, from an offset on; `None` if they can't be read.
    fn again(
        &self,
        alloc: Global,
        name: &str,
        offset: u64,
        len: usize,
    ) -> Result<Option<Vec<u8>>, AllocError>
        ensures bytes { IfOk result (λ found. IsReadAgain (bytes_of self.now name.now) offset len (option_map (λ bytes. bytes.items) found)) };

    /// Tells what goes wrong with an input, and after how many bytes, if any were read.
    fn tell(&self, name: &str, at: Option<u64>, error: &io::Error);
}
