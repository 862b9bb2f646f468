//! Writes bytes.
#![tactic(auto)]

ghost use Rattle.std.specs.Prelude.{IfErr, OnErr, OnOk};
ghost use Rattle.std.specs.Io.KnownBytes.{Appends};
ghost use Rattle.dump_io.specs.lines.Fronts.{AppendsFront};
ghost use Rattle.dump_io.specs.lines.Failing.{IsReading};

use crate::lines::failure::Failure;
use bson_to_json::put_all;
use std::io::Write;

/// Writes these bytes, as `write_all` does: after an error, a front of them is written. Most commands write nothing for most documents.
#[inline(always)]
pub fn put<W: Write>(writer: &mut W, bytes: &[u8]) -> Result<(), Failure>
    ensures written { OnOk result (Appends (W.contents writer.old) (W.contents writer.new) bytes.now) }
    ensures front { OnErr result (AppendsFront (W.contents writer.old) (W.contents writer.new) bytes.now) }
    ensures failed { IfErr result (λ failure. ¬ IsReading failure) }
{
    if bytes.is_empty() {
        return Ok(());
    }
    put_all(writer, bytes).map_err(Failure::Writing)
}
