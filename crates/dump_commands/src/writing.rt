//! Writes what is made of documents: all of it, or one document of each form.
#![tactic(auto)]

ghost use Rattle.std.specs.Prelude.{◌≡◌, ◌∷◌, [], IfErr, IfOk, OnErr, OnOk, true};
ghost use Rattle.std.specs.Io.KnownBytes.{Appends};
ghost use Rattle.dump_commands.specs.Emitting.{Puts};
ghost use Rattle.dump_commands.specs.Making.{is_unique};
ghost use Rattle.dump_commands.specs.Unique.{written_of};
ghost use Rattle.dump_commands.specs.declared.command.Command.TheVariants.{Writes};
ghost use Rattle.dump_commands.specs.declared.making.Making as spells;
ghost use Rattle.dump_commands.specs.state.Forms.{CountsOne, knows, made_as};
ghost use Rattle.dump_commands.specs.state.Gathered.{KeepsCounted};
ghost use Rattle.dump_io.specs.lines.Failing.{IsReading};
ghost use Rattle.dump_io.specs.lines.Fronts.{AppendsFront};

use crate::making::Making;
use crate::state::kept::{Added, Kept};
use dump_io::lines::failure::Failure;
use dump_io::lines::origin::Origin;
use dump_io::lines::write::put;
use std::io::Write;

/// Writes a document that the command makes of one at this place: of `unique` where the digest of its form is new. Returns the place of
/// the first document with that digest, if one came before.
pub fn put_document<'a, D: Write>(
    making: Making<'_>,
    origin: Origin<'a>,
    document: &[u8],
    form: &[u8],
    out: &mut D,
    kept: &mut Kept<'a>,
) -> Result<Option<Origin<'a>>, Failure>
    ensures written { IfOk result
        (Puts (Writes making.entry) origin.entry (made_as document.now form.now ∷ []) (D.contents out.old) (D.contents out.new) kept.old kept.new) }
    ensures front { OnErr result (AppendsFront (D.contents out.old) (D.contents out.new) (written_of (Writes making.entry) (knows kept.old) (made_as document.now form.now ∷ []))) }
    ensures table { KeepsCounted kept.old kept.new }
    ensures failed { IfErr result (λ failure. ¬ IsReading failure) }
{
    if making.is_unique() {
        return put_new(origin, document, form, out, kept);
    }
    put_one(document, out, kept)?;
    Ok(None)
}

/// Writes these bytes, with which a document more is written.
pub(crate) fn put_one<D: Write>(
    bytes: &[u8],
    out: &mut D,
    kept: &mut Kept<'_>,
) -> Result<(), Failure>
    ensures written { OnOk result
        (Appends (D.contents out.old) (D.contents out.new) bytes.now × CountsOne kept.old kept.new) }
    ensures front { OnErr result (AppendsFront (D.contents out.old) (D.contents out.new) bytes.now) }
    ensures table { KeepsCounted kept.old kept.new }
    ensures failed { IfErr result (λ failure. ¬ IsReading failure) }
{
    put(out, bytes)?;
    kept.count_one()
}

/// Writes a document whose form has a new digest, which is known then. Of another it returns the place of the first with its digest.
fn put_new<'a, D: Write>(
    origin: Origin<'a>,
    document: &[u8],
    form: &[u8],
    out: &mut D,
    kept: &mut Kept<'a>,
) -> Result<Option<Origin<'a>>, Failure>
    ensures written { IfOk result (λ first. (m : spells.Making) → is_unique m ≡ true
        → Puts (Writes m) origin.entry (made_as document.now form.now ∷ []) (D.contents out.old) (D.contents out.new) kept.old kept.new first) }
    ensures front { OnErr result ((m : spells.Making) → is_unique m ≡ true
        → AppendsFront (D.contents out.old) (D.contents out.new) (written_of (Writes m) (knows kept.old) (made_as document.now form.now ∷ []))) }
    ensures table { KeepsCounted kept.old kept.new }
    ensures failed { IfErr result (λ failure. ¬ IsReading failure) }
{
    match kept.add(origin, form)? {
        Added::New => {
            put_one(document, out, kept)?;
            Ok(None)
        }
        Added::Repeat(first) => Ok(first),
    }
}
