//! Puts the runs of bytes without an envelope.
#![tactic(auto)]

ghost use Rattle.std.specs.Prelude.{◌≡◌, ◌+◌, ◌-◌, ◌<◌, ◌∷◌, [], ◌++◌, codes, length, IfErr, OnOk};
ghost use Rattle.dump_io.specs.lines.Failing.{IsReading};
ghost use Rattle.dump_io.specs.lines.Find as find;
ghost use Rattle.raw_view.specs.declared.error.Reason as reasons;
ghost use Rattle.raw_view.specs.declared.error.ErrorKind.TheVariants.{MalformedValue};
ghost use Rattle.dump_commands.specs.elements.Runs.{Writes, fault_run};
ghost use Rattle.dump_commands.specs.elements.Showing as says;

use crate::elements::hexed::split_at_most;
use crate::elements::page::{Page, Run, push_run};
use crate::elements::runs::{push_length, push_worded};
use dump_io::lines::failure::Failure;
use dump_io::lines::reason::kind_of;
use dump_io::lines::text::{push_why, push_words};
use raw_view::{ErrorKind, Reason};

/// Puts the runs of bytes without an envelope.
pub fn push_refused(bytes: &[u8], kind: &ErrorKind, page: &mut Page) -> Result<(), Failure>
    ensures put { (why : reasons.Reason) → kind.now ≡ MalformedValue why → OnOk result (Writes page.old page.new
        (says.refused_runs bytes.now why (codes "damaged: " ++ find.kind_text kind.now))) }
    ensures failed { IfErr result (λ failure. ¬ IsReading failure) }
{
    if is_unended(kind) {
        push_unended(bytes, kind, page)
    } else {
        push_misled(bytes, kind, page)
    }
}

fn is_unended(kind: &ErrorKind) -> bool
    ensures { (why : reasons.Reason) → kind.now ≡ MalformedValue why → result ≡ says.is_unended why }
{
    matches!(
        kind,
        ErrorKind::MalformedValue {
            reason: Reason::NotTerminated
        }
    )
}

/// Puts the runs of bytes of which the last should be 0.
fn push_unended(bytes: &[u8], kind: &ErrorKind, page: &mut Page) -> Result<(), Failure>
    ensures put { OnOk result (Writes page.old page.new (says.unended_runs bytes.now (codes "damaged: " ++ find.kind_text kind.now))) }
    ensures failed { IfErr result (λ failure. ¬ IsReading failure) }
{
    let len = bytes.len();
    push_length(page, 0, bytes)?;
    let inside = split_at_most(split_at_most(bytes, 4).1, len.saturating_sub(5)).0;
    push_worded(0, inside, false, "not read", page)?;
    push_why_not(split_at_most(bytes, len.saturating_sub(1)).1, kind, page)?;
    Ok(())
}

/// Puts the runs of bytes of which there are too few, or whose length is wrong.
fn push_misled(bytes: &[u8], kind: &ErrorKind, page: &mut Page) -> Result<(), Failure>
    ensures put { OnOk result (Writes page.old page.new (says.misled_runs bytes.now (codes "damaged: " ++ find.kind_text kind.now))) }
    ensures failed { IfErr result (λ failure. ¬ IsReading failure) }
{
    let (head, others) = split_at_most(bytes, 4);
    push_why_not(head, kind, page)?;
    push_worded(0, others, false, "not read", page)?;
    Ok(())
}

/// Puts bytes at which a document without an envelope fails.
fn push_why_not(bytes: &[u8], kind: &ErrorKind, page: &mut Page) -> Result<(), Failure>
    ensures put { OnOk result (Writes page.old page.new (fault_run 0 bytes.now (codes "damaged: " ++ find.kind_text kind.now) ∷ [])) }
    ensures failed { IfErr result (λ failure. ¬ IsReading failure) }
{
    page.words.clear();
    push_words(&mut page.words, "damaged: ")?;
    push_why(&mut page.words, kind_of(kind))?;
    let run = Run {
        bytes,
        depth: 0,
        is_fault: true,
    };
    push_run(page, run, 0)
}
