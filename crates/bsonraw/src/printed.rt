ghost use Rattle.std.specs.Prelude.{◌≡◌, IfOk};
ghost use Rattle.std.specs.String.{string_bytes};

use crate::status::Status;
use std::alloc::{AllocError, Global};

/// What is printed, and how the run ends.
#[derive(Drop)]
pub struct Printed {
    pub status: Status,
    pub output: String,
}

/// One line alone.
pub fn one_line(alloc: Global, status: Status, line: &str) -> Result<Printed, AllocError>
    ensures { IfOk result (λ p. (p.status ≡ status) × (string_bytes p.output ≡ line.now)) }
{
    let output = String::from_str(alloc, line)?;
    Ok(Printed { status, output })
}
