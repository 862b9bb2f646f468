//! Damaged documents that are kept, since all their faults are texts.
#![tactic(auto)]

ghost use Rattle.std.specs.Prelude.{◌≡◌, List, IfErr, IfOk, OnErr};
ghost use Rattle.std.specs.Option.{option_map};
ghost use Rattle.dump_commands.specs.Emitting.{Puts};
ghost use Rattle.dump_commands.specs.Texts.{KeepsAs, MakesKept, TellsTexts, replaced_account};
ghost use Rattle.dump_commands.specs.Unique.{written_of};
ghost use Rattle.dump_commands.specs.declared.command.Command.TheVariants.{Writes};
ghost use Rattle.dump_commands.specs.declared.making.Making.TheVariants.{Sound};
ghost use Rattle.dump_commands.specs.state.Forms.{Made, knows};
ghost use Rattle.dump_commands.specs.state.Gathered.{KeepsCounted};
ghost use Rattle.dump_io.specs.lines.Failing.{IsReading};
ghost use Rattle.dump_io.specs.lines.Find.{account_of};
ghost use Rattle.dump_io.specs.lines.Fronts.{WritesFront};

use crate::making::Making;
use crate::state::kept::Kept;
use crate::writing::put_document;
use dump_io::lines::failure::Failure;
use dump_io::lines::find::{Finding, Found, Told};
use dump_io::lines::origin::Origin;
use raw_form::with_replaced_texts;
use raw_tree::Limits;
use raw_view::RawDocument;
use std::alloc::{AllocError, Global};
use std::io::Write;

/// What comes of a document whose only faults are texts that aren't UTF-8.
#[derive(Clone, Copy)]
pub enum Texts {
    /// it is damaged, as any other with a fault
    Checked,
    /// it is kept with these texts replaced, within limits
    Replaced(Limits),
}

/// What a damaged document is kept as; `None` if it isn't kept.
pub fn kept_as(alloc: Global, texts: Texts, bytes: &[u8]) -> Result<Option<Vec<u8>>, AllocError>
    ensures { IfOk result (λ kept. KeepsAs texts bytes.now (option_map (λ k. k.items) kept)) }
{
    let Texts::Replaced(limits) = texts else {
        return Ok(None);
    };
    let Ok(document) = RawDocument::from_bytes(bytes) else {
        return Ok(None);
    };
    with_replaced_texts(alloc, document, limits)
}

/// What is found in a document, and told of it: of a damaged one that is kept, that it is replaced.
pub fn told_with<'a>(
    alloc: Global,
    texts: Texts,
    bytes: &[u8],
    found: Found<'a>,
) -> Result<Found<'a>, AllocError>
    ensures finding { IfOk result (λ new. new.finding ≡ found.entry.finding) }
    ensures told { IfOk result (λ new. TellsTexts texts bytes.now found.entry.finding (option_map account_of found.entry.told) (option_map account_of new.told)) }
{
    let Finding::Damaged = found.finding else {
        return Ok(found);
    };
    let None = kept_as(alloc, texts, bytes)? else {
        return Ok(replaced(found));
    };
    Ok(found)
}

/// The same in place of damage.
fn replaced<'a>(found: Found<'a>) -> Found<'a>
    ensures finding { result.finding ≡ found.entry.finding }
    ensures told { option_map account_of result.told ≡ option_map replaced_account (option_map account_of found.entry.told) }
{
    let Found { finding, told } = found;
    let told = match told {
        Some(told) => Some(Told {
            word: "replaced",
            place: told.place,
            reason: told.reason,
        }),
        None => None,
    };
    Found { finding, told }
}

/// Writes what a damaged document is kept as, if it is kept.
pub fn put_kept<'a, D: Write>(
    alloc: Global,
    texts: Texts,
    origin: Origin<'a>,
    bytes: &[u8],
    out: &mut D,
    kept: &mut Kept<'a>,
) -> Result<Option<Origin<'a>>, Failure>
    ensures written { IfOk result (λ first. (made : List Made) × MakesKept texts bytes.now made
        × Puts (Writes (Sound texts)) origin.entry made (D.contents out.old) (D.contents out.new) kept.old kept.new first) }
    ensures front { OnErr result (WritesFront
        (λ text. (made : List Made) × MakesKept texts bytes.now made × (text ≡ written_of (Writes (Sound texts)) (knows kept.old) made))
        (D.contents out.old) (D.contents out.new)) }
    ensures table { KeepsCounted kept.old kept.new }
    ensures failed { IfErr result (λ failure. ¬ IsReading failure) }
{
    let Some(document) = kept_as(alloc, texts, bytes)? else {
        return Ok(None);
    };
    let document = document.as_slice();
    put_document(Making::Sound(texts), origin, document, document, out, kept)
}
