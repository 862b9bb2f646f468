ghost use Rattle.std.specs.Prelude.{◌≡◌, IfOk};
ghost use Rattle.bsonraw.specs.Print.{digits_of};

use std::alloc::{AllocError, Global};

/// The text without its blanks and line ends.
pub fn without_blanks(alloc: Global, text: &[u8]) -> Result<Vec<u8>, AllocError>
    ensures { IfOk result (λ digits. digits.items ≡ digits_of text.now) }
{
    text.iter()
        .filter(|c| !matches!(**c, b' ' | b'\n' | b'\r'))
        .copied()
        .collect(alloc)
}
