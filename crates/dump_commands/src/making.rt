//! Makes documents of documents, or texts.
#![tactic(auto)]

ghost use Rattle.std.specs.Prelude.{◌≡◌, ℕ, List, Option, [], ◌∷◌, ◌++◌, codes, IfOk, IfErr, OnErr, OnOk};
ghost use Rattle.std.specs.Io.KnownBytes.{Appends};
ghost use Rattle.dump_commands.specs.Findings.{FindsFor};
ghost use Rattle.dump_io.specs.lines.Fronts.{AppendsFront, WritesFront};
ghost use Rattle.dump_commands.specs.Emitting.{Emits, IsMade, Puts};
ghost use Rattle.dump_commands.specs.state.Gathered.{KeepsCounted};
ghost use Rattle.dump_io.specs.lines.Find.{Account};
ghost use Rattle.dump_commands.specs.state.Forms.{CountsOne, knows, made_as};
ghost use Rattle.dump_commands.specs.Unique.{written_of};
ghost use Rattle.dump_io.specs.lines.Origins.{origin_of};
ghost use Rattle.dump_io.specs.lines.Failing.{IsReading};
ghost use Rattle.dump_commands.specs.Making as says;
ghost use Rattle.raw_tree.specs.CanonicalForm.{IsCanonicalForm};
ghost use Rattle.raw_view.specs.Frame.Envelope.{IsEnvelope};
ghost use Rattle.bson_to_json.specs.Guarding.{inner_of};
ghost use Rattle.bson_to_json.specs.Json.{IsJson};
ghost use Rattle.dump_commands.specs.declared.command.Command.TheVariants.{Writes};

use crate::command::{Breaches, Command, Profile, Summaries};
use crate::picking::{Picking, put_picked};
use crate::state::kept::Kept;
use crate::texts::{Texts, put_kept};
use crate::writing::{put_document, put_one};
use bson_to_json::{Guarded, Style as JsonStyle, WriteJsonError, write_json};
use dump_io::lines::failure::Failure;
use dump_io::lines::find::Finding;
use dump_io::lines::origin::Origin;
use raw_form::canonical_within;
use raw_tree::Limits;
use raw_view::RawDocument;
use std::alloc::Global;
use std::io::Write;

/// What `unique` writes of a document.
#[derive(Clone, Copy)]
pub enum Spelling {
    /// its canonical form
    Canonical,
    /// its bytes, as they are
    Original,
}

/// A command that writes documents, or texts of them.
#[derive(Clone, Copy)]
pub enum Making<'a> {
    /// the canonical form of each without damage
    Canon,
    /// each without damage, unchanged
    Sound(Texts),
    /// of each without damage the canonical form, or the bytes as they are, where its form is the first with its digest
    Unique(Spelling),
    /// each without damage as Extended JSON, with a line feed after it
    Json(JsonStyle),
    /// a document of some elements of each without damage
    Pick(Picking<'a>),
}

impl<'a> Making<'a> {
    /// What is so of it, whatever it finds.
    pub fn profile(self) -> Profile
        ensures { result ≡ says.making_profile self.entry }
    {
        let breaches = match self {
            Making::Canon => Breaches::Counted,
            Making::Sound(_) | Making::Unique(_) | Making::Json(_) | Making::Pick(_) => {
                Breaches::Ignored
            }
        };
        Profile {
            looks: true,
            breaches,
            summaries: Summaries::Last,
        }
    }

    /// Whether it writes BSON, which is no text.
    pub fn is_bson(self) -> bool
        ensures { result ≡ says.is_bson self.entry }
    {
        match self {
            Making::Canon | Making::Sound(_) | Making::Unique(_) => true,
            Making::Json(_) => false,
            Making::Pick(picking) => picking.form.is_dump(),
        }
    }

    /// Whether it writes one document of each form, and no other.
    pub fn is_unique(self) -> bool
        ensures { result ≡ says.is_unique self.entry }
    {
        matches!(self, Making::Unique(_))
    }

    /// What comes of texts that aren't UTF-8.
    pub fn texts(self) -> Texts
        ensures { result ≡ says.texts_of self.entry }
    {
        match self {
            Making::Sound(texts) => texts,
            Making::Canon | Making::Unique(_) | Making::Json(_) | Making::Pick(_) => Texts::Checked,
        }
    }

    /// Which elements it picks.
    pub fn picking(self) -> Option<Picking<'a>>
        ensures { result ≡ says.picking_of self.entry }
    {
        match self {
            Making::Pick(picking) => Some(picking),
            Making::Canon | Making::Sound(_) | Making::Unique(_) | Making::Json(_) => None,
        }
    }
}

/// Makes the command's document of one at this place in which this was found, and writes it. Returns the place of the first document
/// of its form, if one came before.
pub fn emit<'a, D: Write>(
    alloc: Global,
    command: Command<'_>,
    limits: Limits,
    origin: Origin<'a>,
    finding: Finding,
    bytes: &[u8],
    out: &mut Guarded<D>,
    kept: &mut Kept<'a>,
) -> Result<Option<Origin<'a>>, Failure>
    requires { (told : Option Account) × FindsFor limits command bytes.now finding told }
    ensures written { IfOk result
        (Emits command.entry origin.entry bytes.now finding (D.contents (inner_of out.old)) (D.contents (inner_of out.new)) kept.old kept.new) }
    ensures front { OnErr result (WritesFront (IsMade command.entry bytes.now finding kept.old) (D.contents (inner_of out.old)) (D.contents (inner_of out.new))) }
    ensures table { KeepsCounted kept.old kept.new }
    ensures failed { IfErr result (λ failure. ¬ IsReading failure) }
{
    match command {
        Command::Prints(_) | Command::Gathers(_) => Ok(None),
        Command::Writes(making) => {
            put_made(alloc, making, limits, origin, finding, bytes, out, kept)
        }
    }
}

/// Makes and writes a document so.
fn put_made<'a, D: Write>(
    alloc: Global,
    making: Making<'_>,
    limits: Limits,
    origin: Origin<'a>,
    finding: Finding,
    bytes: &[u8],
    out: &mut Guarded<D>,
    kept: &mut Kept<'a>,
) -> Result<Option<Origin<'a>>, Failure>
    requires { (told : Option Account) × FindsFor limits (Writes making) bytes.now finding told }
    ensures written { IfOk result
        (Emits (Writes making.entry) origin.entry bytes.now finding (D.contents (inner_of out.old)) (D.contents (inner_of out.new)) kept.old kept.new) }
    ensures front { OnErr result (WritesFront (IsMade (Writes making.entry) bytes.now finding kept.old) (D.contents (inner_of out.old)) (D.contents (inner_of out.new))) }
    ensures table { KeepsCounted kept.old kept.new }
    ensures failed { IfErr result (λ failure. ¬ IsReading failure) }
{
    match (making, finding) {
        (Making::Sound(texts), Finding::Damaged) => {
            put_kept(alloc, texts, origin, bytes, out, kept)
        }
        (_, Finding::Damaged | Finding::TooDeep | Finding::Unvalidated) => Ok(None),
        (Making::Sound(_), Finding::Canonical | Finding::Breached)
        | (Making::Canon | Making::Unique(_), Finding::Canonical) => {
            put_document(making, origin, bytes, bytes, out, kept)
        }
        (Making::Canon, Finding::Breached) => {
            put_form(alloc, making, limits, origin, bytes, out, kept)
        }
        (Making::Unique(_), Finding::Breached) => {
            put_form(alloc, making, limits, origin, bytes, out, kept)
        }
        (Making::Json(style), Finding::Canonical | Finding::Breached) => {
            put_json(alloc, style, limits, bytes, out, kept)?;
            Ok(None)
        }
        (Making::Pick(picking), Finding::Canonical | Finding::Breached) => {
            put_picked(alloc, picking, limits, bytes, out, kept)?;
            Ok(None)
        }
    }
}

/// Writes the canonical form of a document, or of `unique` the document as it is, where that is asked for. A form that is over the range
/// of lengths counts as one without memory.
fn put_form<'a, D: Write>(
    alloc: Global,
    making: Making<'_>,
    limits: Limits,
    origin: Origin<'a>,
    bytes: &[u8],
    out: &mut D,
    kept: &mut Kept<'a>,
) -> Result<Option<Origin<'a>>, Failure>
    ensures written { IfOk result (λ first. (form : List ℕ) × IsCanonicalForm bytes.now form
        × Puts (Writes making.entry) origin.entry (made_as (says.spelled making.entry bytes.now form) form ∷ []) (D.contents out.old) (D.contents out.new) kept.old kept.new first) }
    ensures front { OnErr result (WritesFront
        (λ text. (form : List ℕ) × IsCanonicalForm bytes.now form
        × (text ≡ written_of (Writes making.entry) (knows kept.old) (made_as (says.spelled making.entry bytes.now form) form ∷ [])))
        (D.contents out.old) (D.contents out.new)) }
    ensures table { KeepsCounted kept.old kept.new }
    ensures failed { IfErr result (λ failure. ¬ IsReading failure) }
{
    match canonical_within(alloc, bytes, limits) {
        Ok(form) => {
            let form = form.as_slice();
            let document = spelled(making, bytes, form);
            put_document(making, origin, document, form, out, kept)
        }
        Err(_) => Err(Failure::Memory),
    }
}

/// What is written of a document with this canonical form.
fn spelled<'a>(making: Making<'_>, bytes: &'a [u8], form: &'a [u8]) -> &'a [u8]
    ensures { result.now ≡ says.spelled making.entry bytes.now form.now }
{
    match making {
        Making::Unique(Spelling::Original) => bytes,
        Making::Unique(Spelling::Canonical)
        | Making::Canon
        | Making::Sound(_)
        | Making::Json(_)
        | Making::Pick(_) => form,
    }
}

/// Writes a document as Extended JSON, and a line feed. What would be over the limits counts as out of memory.
pub(crate) fn put_json<D: Write>(
    alloc: Global,
    style: JsonStyle,
    limits: Limits,
    bytes: &[u8],
    out: &mut Guarded<D>,
    kept: &mut Kept<'_>,
) -> Result<(), Failure>
    requires { IsEnvelope bytes.now }
    ensures written { OnOk result ((text : List ℕ) × IsJson style bytes.now text
        × Appends (D.contents (inner_of out.old)) (D.contents (inner_of out.new)) (text ++ codes "\n") × CountsOne kept.old kept.new) }
    ensures front { OnErr result (WritesFront
        (λ line. (text : List ℕ) × IsJson style bytes.now text × (line ≡ text ++ codes "\n")) (D.contents (inner_of out.old)) (D.contents (inner_of out.new))) }
    ensures table { KeepsCounted kept.old kept.new }
    ensures failed { IfErr result (λ failure. ¬ IsReading failure) }
{
    let Ok(document) = RawDocument::from_bytes(bytes) else {
        unreachable!()
    };
    match write_json(alloc, document, style, limits, out) {
        Ok(()) => put_one(b"\n", out, kept),
        Err(WriteJsonError::Writing(error)) => Err(Failure::Writing(error)),
        Err(_) => Err(Failure::Memory),
    }
}
