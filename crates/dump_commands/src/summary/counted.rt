//! What is counted: numbers with their names.
#![tactic(auto)]

ghost use Rattle.std.specs.Prelude.{◌≡◌, ◌++◌, ◌∷◌, [], IfOk, OnOk, map};
ghost use Rattle.dump_commands.specs.Commands.{counts_of};
ghost use Rattle.dump_commands.specs.Summary.{breached_counts, count_of, damaged_counts, hidden_counts, left_counts, left_out_counts, text_counts};

use crate::command::{Breaches, Command};
use crate::counts::Counts;
use std::alloc::{AllocError, Global};

/// A number that is counted.
#[derive(Clone, Copy)]
pub struct Count {
    /// what is counted
    pub name: &'static str,
    /// how many
    pub number: u64,
}

fn push(counts: &mut Vec<Count>, name: &'static str, number: u64) -> Result<(), AllocError>
    ensures { OnOk result (map count_of counts.new.items ≡ map count_of counts.old.items ++ (name.now, number) ∷ []) }
{
    counts.push(Count { name, number })?;
    Ok(())
}

/// How many documents stand alone, and how many others were left out, where the command keeps any.
fn push_left_out(
    all: &mut Vec<Count>,
    keeps: bool,
    counts: &Counts,
    kept: u64,
) -> Result<(), AllocError>
    ensures { OnOk result (map count_of all.new.items ≡ map count_of all.old.items ++ left_out_counts keeps counts.now kept) }
{
    if !keeps {
        return Ok(());
    }
    push(all, "alone", counts.alone)?;
    let others = counts.documents.saturating_sub(counts.alone);
    push(all, "left out", others.saturating_sub(kept))
}

/// How many documents aren't canonical, where the command counts them.
fn push_breached(
    all: &mut Vec<Count>,
    breaches: Breaches,
    counts: &Counts,
) -> Result<(), AllocError>
    ensures { OnOk result (map count_of all.new.items ≡ map count_of all.old.items ++ breached_counts breaches counts.now) }
{
    match breaches {
        Breaches::Ignored => Ok(()),
        Breaches::Counted | Breaches::Found => push(all, "not canonical", counts.breached),
    }
}

/// How many documents are damaged or too deep, where the command looks into them.
fn push_damaged(all: &mut Vec<Count>, looks: bool, counts: &Counts) -> Result<(), AllocError>
    ensures { OnOk result (map count_of all.new.items ≡ map count_of all.old.items ++ damaged_counts looks counts.now) }
{
    if !looks {
        return Ok(());
    }
    push(all, "damaged", counts.damaged)?;
    push(all, "too deep", counts.too_deep)
}

/// Of what no document was made.
fn push_left(all: &mut Vec<Count>, counts: &Counts) -> Result<(), AllocError>
    ensures { OnOk result (map count_of all.new.items ≡ map count_of all.old.items ++ left_counts counts.now) }
{
    push(all, "bytes passed over", counts.passed_over)?;
    push(all, "bytes not read", counts.not_read)?;
    push(all, "files not read to the end", counts.files)
}

/// The findings that weren't printed, where at most `limit` are.
fn push_hidden(all: &mut Vec<Count>, limit: Option<u64>, counts: &Counts) -> Result<(), AllocError>
    ensures { OnOk result (map count_of all.new.items ≡ map count_of all.old.items ++ hidden_counts limit counts.now) }
{
    match limit {
        Some(most) => push(
            all,
            "findings not printed",
            counts.findings.saturating_sub(most),
        ),
        None => Ok(()),
    }
}

/// All that a command counted beside the documents and what is told first.
pub fn counted(
    alloc: Global,
    limit: Option<u64>,
    command: Command<'_>,
    counts: &Counts,
    kept: u64,
) -> Result<Vec<Count>, AllocError>
    ensures { IfOk result (λ all. map count_of all.items ≡ counts_of limit command.entry counts.now kept) }
{
    let profile = command.profile();
    let mut all = Vec::new(alloc);
    push(&mut all, "bytes", counts.bytes)?;
    push_left_out(&mut all, command.keeps(), counts, kept)?;
    push_breached(&mut all, profile.breaches, counts)?;
    push_damaged(&mut all, profile.looks, counts)?;
    push_left(&mut all, counts)?;
    push_hidden(&mut all, limit, counts)?;
    Ok(all)
}

/// All that was counted of texts beside the documents.
pub fn text_counted(
    alloc: Global,
    limit: Option<u64>,
    counts: &Counts,
) -> Result<Vec<Count>, AllocError>
    ensures { IfOk result (λ all. map count_of all.items ≡ text_counts limit counts.now) }
{
    let mut all = Vec::new(alloc);
    push(&mut all, "bytes", counts.bytes)?;
    push(&mut all, "faults", counts.damaged)?;
    push(&mut all, "files that can't be read", counts.files)?;
    push_hidden(&mut all, limit, counts)?;
    Ok(all)
}
