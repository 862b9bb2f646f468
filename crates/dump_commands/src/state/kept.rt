//! What was written so far.
#![tactic(auto)]

ghost use Rattle.std.specs.Prelude.{◌≡◌, ℕ, List, None, false, true, not, IfOk, OnOk};
ghost use Rattle.dump_commands.specs.state.Forms.{digest_of, first_at, first_of, has_digest, is_new, no_firsts, origins_of, placed, with_first, with_form};
ghost use Rattle.dump_io.specs.lines.Origins.{origin_of};
ghost use Rattle.dump_commands.specs.declared.state.kept.Forms.TheVariants.{Digests, Firsts};

use crate::command::Command;
use crate::diff::sides::{Side, Sides};
use crate::gathering::lines_of;
use crate::state::fields::add_tokens;
use crate::state::gathered::{Gathered, Measure};
use dump_io::lines::failure::{Failure, in_range};
use dump_io::lines::origin::Origin;
use dump_io::lines::style::Style;
use raw_form::Token;
use sha2::{Digest, Sha256};
use std::alloc::{AllocError, Global};
use std::collections::{BTreeMap, BTreeSet};

/// The digests of the forms of what was written, in 32 bytes.
#[derive(Drop)]
enum Forms<'a> {
    /// no more than them
    Digests(BTreeSet<[u8; 32]>),
    /// with the place of the first document of each
    Firsts(BTreeMap<[u8; 32], Origin<'a>>),
}

/// What comes of a form that is put to the others.
#[derive(Clone, Copy)]
pub enum Added<'a> {
    /// its digest is new
    New,
    /// its digest came before, at this place if places are kept
    Repeat(Option<Origin<'a>>),
}

/// What was written so far: how many documents, and of unique the digest of each form; and what was gathered of documents.
#[derive(Drop)]
pub struct Kept<'a> {
    count: u64,
    forms: Forms<'a>,
    gathered: Gathered<'a>,
}

impl<'a> Kept<'a> {
    ghost use Rattle.std.specs.Prelude.{◌≡◌, ◌∷◌, [], ℕ, List, false, not, IfErr, IfOk, OnOk};
    ghost use Rattle.dump_commands.specs.state.Fields.{fields_of, outermost};
    ghost use Rattle.dump_commands.specs.state.Gathered.{Document, IsMeasured, KeepsCounted, KeepsWritten, nothing, of_fields, of_seen, of_side, tabled, with_document};
    ghost use Rattle.dump_commands.specs.Gathering as says;
    ghost use Rattle.dump_commands.specs.diff.Sides.{side_of, sides_of};
    ghost use Rattle.dump_io.specs.lines.Failing.{IsReading};
    ghost use Rattle.dump_commands.specs.state.Forms.{CountsOne, written_count, digest_of, first_at, first_of, firsts_of, is_new, knows, no_firsts, placed, with_first, with_form};
    ghost use Rattle.dump_io.specs.lines.Origins.{origin_of};

    /// Nothing was written, and nothing gathered; at most `paths` paths will be counted. Places of first documents are kept where repeats are
    /// asked for.
    pub fn new(alloc: Global, repeats: bool, paths: usize) -> Kept<'a>
        ensures none { written_count result ≡ 0 }
        ensures unknown { (d : List ℕ) → knows result d ≡ false }
        ensures firsts { firsts_of result ≡ no_firsts repeats }
        ensures ungathered { tabled result ≡ nothing paths }
    {
        Kept {
            count: 0,
            forms: no_forms(alloc, repeats),
            gathered: Gathered::new(alloc, paths),
        }
    }

    /// How many documents were written.
    pub fn count(&self) -> u64
        ensures { result ≡ written_count self.now }
    {
        self.count
    }

    /// The lines that tell what the command gathered.
    pub fn lines(
        &self,
        alloc: Global,
        style: Style,
        command: Command<'_>,
    ) -> Result<Vec<u8>, Failure>
        ensures lines { IfOk result (λ text. text.items ≡ says.lines_of style command.entry (tabled self.now)) }
        ensures failed { IfErr result (λ failure. ¬ IsReading failure) }
    {
        lines_of(alloc, style, command, &self.gathered)
    }

    /// Puts the elements of a document with these tokens, which begins there, to those that were counted.
    pub fn add_document(
        &mut self,
        alloc: Global,
        origin: Origin<'a>,
        bytes: &[u8],
        tokens: &[Token],
    ) -> Result<(), Failure>
        ensures added { OnOk result (tabled self.new
            ≡ with_document (tabled self.old) (of_fields (origin_of origin.entry) (fields_of bytes.now (outermost ∷ []) tokens.now))) }
        ensures written { KeepsWritten self.old self.new }
        ensures failed { IfErr result (λ failure. ¬ IsReading failure) }
    {
        self.gathered.paths.begin()?;
        add_tokens(alloc, &mut self.gathered.paths, origin, bytes, tokens)
    }

    /// Puts which paths lead to an element in a document to what was gathered.
    pub fn see(&mut self, alloc: Global, flags: &[bool]) -> Result<(), Failure>
        ensures added { OnOk result (tabled self.new ≡ with_document (tabled self.old) (of_seen flags.now)) }
        ensures written { KeepsWritten self.old self.new }
        ensures failed { IfErr result (λ failure. ¬ IsReading failure) }
    {
        self.gathered.see(alloc, flags)?;
        Ok(())
    }

    /// Puts a document that is compared to those that were gathered.
    pub fn add_side(&mut self, of_old: bool, side: Side<'a>) -> Result<(), Failure>
        ensures added { OnOk result (tabled self.new ≡ with_document (tabled self.old) (of_side of_old (side_of side.entry))) }
        ensures written { KeepsWritten self.old self.new }
        ensures failed { IfErr result (λ failure. ¬ IsReading failure) }
    {
        self.gathered.add_side(of_old, side)?;
        Ok(())
    }

    /// The documents that are compared.
    pub fn sides(&self) -> &Sides<'a>
        ensures { sides_of result.now ≡ (tabled self.now).sides }
    {
        &self.gathered.sides
    }

    /// Puts the length of a document with these bytes, which begins there, to those that were gathered.
    pub fn measure(
        &mut self,
        alloc: Global,
        measure: Measure,
        origin: Origin<'a>,
        bytes: &[u8],
    ) -> Result<(), Failure>
        ensures added { OnOk result ((document : Document) × IsMeasured measure (origin_of origin.entry) bytes.now document
            × (tabled self.new ≡ with_document (tabled self.old) document)) }
        ensures written { KeepsWritten self.old self.new }
        ensures failed { IfErr result (λ failure. ¬ IsReading failure) }
    {
        self.gathered.measure(alloc, measure, origin, bytes)
    }

    /// One document more was written. Fails if there would be too many to count.
    pub fn count_one(&mut self) -> Result<(), Failure>
        ensures counted { OnOk result (CountsOne self.old self.new) }
        ensures table { KeepsCounted self.old self.new }
        ensures failed { IfErr result (λ failure. ¬ IsReading failure) }
    {
        self.count = in_range(self.count.checked_add(1))?;
        Ok(())
    }

    /// Puts the digest of a form to the others, with the place of the document that it is made of, and returns whether it is new.
    pub fn add(&mut self, origin: Origin<'a>, form: &[u8]) -> Result<Added<'a>, AllocError>
        ensures new { IfOk result (λ added. is_new added ≡ not (knows self.old (digest_of form.now))) }
        ensures first { IfOk result (λ added. first_of added ≡ first_at (firsts_of self.old) form.now) }
        ensures known { OnOk result
            ((d : List ℕ) → knows self.new d ≡ with_form (knows self.old) form.now d) }
        ensures places { OnOk result
            (firsts_of self.new ≡ with_first (firsts_of self.old) (placed (origin_of origin.entry) form.now)) }
        ensures count { written_count self.new ≡ written_count self.old }
        ensures table { KeepsCounted self.old self.new }
    {
        match &mut self.forms {
            Forms::Digests(digests) => add_digest(digests, form),
            Forms::Firsts(firsts) => add_first(firsts, origin, form),
        }
    }
}

/// No digests, with places or without.
fn no_forms<'a>(alloc: Global, repeats: bool) -> Forms<'a>
    ensures unknown { (d : List ℕ) → has_digest result d ≡ false }
    ensures firsts { origins_of result ≡ no_firsts repeats }
{
    match repeats {
        true => no_places(alloc),
        false => Forms::Digests(BTreeSet::new(alloc)),
    }
}

/// No digests and no places.
fn no_places<'a>(alloc: Global) -> Forms<'a>
    ensures unknown { (d : List ℕ) → has_digest result d ≡ false }
    ensures firsts { origins_of result ≡ no_firsts true }
{
    Forms::Firsts(BTreeMap::new(alloc))
}

/// What comes of a form of which no place is known.
fn unplaced<'a>(new: bool) -> Added<'a>
    ensures new { is_new result ≡ new }
    ensures first { first_of result ≡ None }
{
    match new {
        true => Added::New,
        false => Added::Repeat(None),
    }
}

/// Puts a form's digest to the others.
fn add_digest<'a>(digests: &mut BTreeSet<[u8; 32]>, form: &[u8]) -> Result<Added<'a>, AllocError>
    ensures new { IfOk result (λ added. is_new added ≡ not (has_digest (Digests digests.old) (digest_of form.now))) }
    ensures first { IfOk result (λ added. first_of added ≡ None) }
    ensures known { OnOk result ((d : List ℕ) → has_digest (Digests digests.new) d
        ≡ with_form (λ e. has_digest (Digests digests.old) e) form.now d) }
{
    let is_new = digests.insert(Sha256::digest(form))?;
    Ok(unplaced(is_new))
}

/// Puts a form's digest to the others with this place, unless it has one.
fn add_first<'a>(
    firsts: &mut BTreeMap<[u8; 32], Origin<'a>>,
    origin: Origin<'a>,
    form: &[u8],
) -> Result<Added<'a>, AllocError>
    ensures new { IfOk result (λ added. is_new added ≡ not (has_digest (Firsts firsts.old) (digest_of form.now))) }
    ensures first { IfOk result (λ added. first_of added ≡ first_at (origins_of (Firsts firsts.old)) form.now) }
    ensures known { OnOk result ((d : List ℕ) → has_digest (Firsts firsts.new) d
        ≡ with_form (λ e. has_digest (Firsts firsts.old) e) form.now d) }
    ensures places { OnOk result (origins_of (Firsts firsts.new)
        ≡ with_first (origins_of (Firsts firsts.old)) (placed (origin_of origin.entry) form.now)) }
{
    let digest = Sha256::digest(form);
    if let Some(first) = firsts.get(&digest) {
        return Ok(Added::Repeat(Some(*first)));
    }
    firsts.insert(digest, origin)?;
    Ok(Added::New)
}
