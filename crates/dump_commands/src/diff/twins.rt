//! The documents of one input that aren't the same in another.
#![tactic(auto)]

ghost use Rattle.std.specs.Prelude.{◌≡◌, ◌++◌, ◌∷◌, [], List, Some, IfOk, OnOk, cond, map, nat_lt};
ghost use Rattle.std.specs.BTreeMap.{Updates};
ghost use Rattle.dump_commands.specs.diff.Numbering.{AreLeft, sides_at, twin_cmp, twins_at};
ghost use Rattle.dump_commands.specs.diff.Pairs.{left_after};
ghost use Rattle.dump_commands.specs.diff.Sides.{side_of};
ghost use Rattle.dump_commands.specs.diff.Sides as spec;

use crate::diff::sides::Side;
use std::alloc::{AllocError, Global};
use std::collections::BTreeMap;

/// How many documents have each key and form, by the digests of both.
type Twins = BTreeMap<([u8; 32], [u8; 32]), usize>;

/// The documents of one input that aren't the same in the other, in order. A count over its range, which no documents that are in memory reach,
/// counts as out of memory.
pub fn left<'a, 'b>(
    alloc: Global,
    own: &'b [Side<'a>],
    others: &[Side<'_>],
) -> Result<Vec<&'b Side<'a>>, AllocError>
    ensures { IfOk result (λ left. sides_at left.items ≡ left_after (map side_of others.now) [] (map side_of own.entry.now)) }
{
    let mut twins = counted(alloc, others)?;
    let mut left = Vec::new(alloc);
    for side in own {
        let same = take_one(&mut twins, side)?;
        push_unless(&mut left, same, side)?;
    }
    Ok(left)
}

/// How many of these documents have each key and form.
fn counted(alloc: Global, sides: &[Side<'_>]) -> Result<Twins, AllocError>
    ensures { IfOk result (AreLeft (map side_of sides.now) []) }
{
    let mut twins = BTreeMap::new(alloc);
    for side in sides {
        add_one(&mut twins, side)?;
    }
    Ok(twins)
}

/// How many documents have the key and the form of this one.
fn count_of(twins: &Twins, side: &Side<'_>) -> usize
    ensures { result ≡ twins_at twins.now side.now.key side.now.form }
{
    match twins.get(&(side.key, side.form)) {
        Some(count) => *count,
        None => 0,
    }
}

/// Puts how many documents have the key and the form of this one.
fn put_count(twins: &mut Twins, side: &Side<'_>, count: usize) -> Result<(), AllocError>
    ensures { OnOk result (Updates twin_cmp twins.old twins.new (side.now.key, side.now.form) (Some count)) }
{
    twins.insert((side.key, side.form), count)?;
    Ok(())
}

/// One document more.
fn add_one(twins: &mut Twins, side: &Side<'_>) -> Result<(), AllocError>
    ensures { OnOk result ((ss : List spec.Side) → AreLeft ss [] twins.old → AreLeft (ss ++ side_of side.now ∷ []) [] twins.new) }
{
    let Some(count) = count_of(twins, side).checked_add(1) else {
        return Err(AllocError);
    };
    put_count(twins, side, count)
}

/// Takes away a document with the key and the form of this one; returns whether one was left.
fn take_one(twins: &mut Twins, side: &Side<'_>) -> Result<bool, AllocError>
    ensures same { IfOk result (λ same. same ≡ nat_lt 0 (twins_at twins.old side.now.key side.now.form)) }
    ensures taken { OnOk result ((ss taken : List spec.Side) → AreLeft ss taken twins.old → AreLeft ss (taken ++ side_of side.now ∷ []) twins.new) }
{
    let count = count_of(twins, side);
    if count == 0 {
        return Ok(false);
    }
    put_count(twins, side, count - 1)?;
    Ok(true)
}

/// Puts a document after the others, unless it is the same in the other input.
fn push_unless<'a, 'b>(
    left: &mut Vec<&'b Side<'a>>,
    same: bool,
    side: &'b Side<'a>,
) -> Result<(), AllocError>
    ensures { OnOk result (sides_at left.new.items ≡ sides_at left.old.items ++ cond same [] (side_of side.entry.now ∷ [])) }
{
    if !same {
        left.push(side)?;
    }
    Ok(())
}
