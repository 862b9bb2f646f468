//! What is picked of a document, and how it is written.
#![tactic(auto)]

ghost use Rattle.std.specs.Prelude.{◌≡◌, List, ℕ, IfErr, OnErr, OnOk};
ghost use Rattle.std.specs.Io.KnownBytes.{Appends};
ghost use Rattle.raw_view.specs.Frame.Envelope.{IsEnvelope};
ghost use Rattle.bson_to_json.specs.Guarding.{inner_of};
ghost use Rattle.dump_io.specs.lines.Failing.{IsReading};
ghost use Rattle.dump_io.specs.lines.Fronts.{AppendsFront, WritesFront};
ghost use Rattle.dump_commands.specs.Picking.{IsPickedAs, header_of, is_dump};
ghost use Rattle.dump_commands.specs.state.Forms.{CountsOne};
ghost use Rattle.dump_commands.specs.state.Gathered.{KeepsCounted};

use crate::elements::chosen::chosen;
use crate::elements::row::{header, row};
use crate::making::put_json;
use crate::state::kept::Kept;
use crate::writing::put_one;
use bson_to_json::{Guarded, Style};
use dump_io::lines::failure::Failure;
use dump_io::lines::write::put;
use raw_tree::Limits;
use raw_view::RawDocument;
use std::alloc::Global;
use std::io::Write;

/// Which elements of documents paths pick.
#[derive(Clone, Copy)]
pub enum Choice {
    /// those to which they lead, each under its path
    Named,
    /// those that they name, where they are
    InPlace,
    /// all but those that they name, where they are
    Others,
}

/// What is between the cells of a row.
#[derive(Clone, Copy)]
pub enum Separator {
    Comma,
    Tab,
}

/// How what is picked is written.
#[derive(Clone, Copy)]
pub enum Form {
    /// its document, as it is
    Dump,
    /// its document, as Extended JSON
    Json(Style),
    /// a row of the values at its paths
    Row(Separator),
}

impl Form {
    /// Whether it is BSON.
    pub fn is_dump(self) -> bool
        ensures { result ≡ is_dump self }
    {
        matches!(self, Form::Dump)
    }
}

/// Which elements are picked, and how they are written.
#[derive(Clone, Copy)]
pub struct Picking<'a> {
    /// paths with commas between them; the steps of each have dots between them
    pub paths: &'a str,
    /// which elements they pick
    pub choice: Choice,
    /// how they are written
    pub form: Form,
}

/// Writes the document of some elements of a document, which may be longer than that. What would be over the limits counts as out of
/// memory.
pub(crate) fn put_picked<D: Write>(
    alloc: Global,
    picking: Picking<'_>,
    limits: Limits,
    bytes: &[u8],
    out: &mut Guarded<D>,
    kept: &mut Kept<'_>,
) -> Result<(), Failure>
    requires { IsEnvelope bytes.now }
    ensures written { OnOk result ((made : List ℕ) × IsPickedAs picking.entry bytes.now made
        × Appends (D.contents (inner_of out.old)) (D.contents (inner_of out.new)) made × CountsOne kept.old kept.new) }
    ensures front { OnErr result (WritesFront (IsPickedAs picking.entry bytes.now) (D.contents (inner_of out.old)) (D.contents (inner_of out.new))) }
    ensures table { KeepsCounted kept.old kept.new }
    ensures failed { IfErr result (λ failure. ¬ IsReading failure) }
{
    let Ok(document) = RawDocument::from_bytes(bytes) else {
        unreachable!()
    };
    match picking.form {
        Form::Dump => {
            let picked = chosen(alloc, document, picking)?;
            put_one(&picked, out, kept)
        }
        Form::Json(style) => {
            let picked = chosen(alloc, document, picking)?;
            let bytes = picked.len();
            let limits = Limits { bytes, ..limits };
            put_json(alloc, style, limits, &picked, out, kept)
        }
        Form::Row(separator) => {
            let row = row(alloc, document, picking.paths, separator, limits.depth)?;
            put_one(&row, out, kept)
        }
    }
}

/// Writes what comes before all that is picked: of rows the header.
pub fn put_header<D: Write>(alloc: Global, picking: Picking<'_>, out: &mut D) -> Result<(), Failure>
    ensures written { OnOk result (Appends (D.contents out.old) (D.contents out.new) (header_of picking.entry)) }
    ensures front { OnErr result (AppendsFront (D.contents out.old) (D.contents out.new) (header_of picking.entry)) }
    ensures failed { IfErr result (λ failure. ¬ IsReading failure) }
{
    match picking.form {
        Form::Row(separator) => {
            let row = header(alloc, picking.paths, separator)?;
            put(out, &row)
        }
        Form::Dump | Form::Json(_) => put(out, b""),
    }
}
