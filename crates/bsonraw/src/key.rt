ghost use Rattle.std.specs.Prelude.{◌≡◌, IfOk};
ghost use Rattle.std.specs.String.{string_bytes};
ghost use Rattle.bsonraw.specs.Print.{key_hex};

use std::alloc::{AllocError, Global};

/// A key in hex, and the empty one as a dash.
pub fn key_digits(alloc: Global, key: &str) -> Result<String, AllocError>
    ensures { IfOk result (λ text. string_bytes text ≡ key_hex key.now) }
{
    if key.is_empty() {
        String::from_str(alloc, "-")
    } else {
        hex::encode(alloc, key)
    }
}
