//! The paths of leaves that another document doesn't have.
#![tactic(auto)]

ghost use Rattle.std.specs.Prelude.{◌≡◌, ◌++◌, [], fold, IfOk, OnOk};
ghost use Rattle.dump_commands.specs.elements.Numbered.{AreKnown, IsSetOf, lacking, lacking_in, number_unless_in, with_number};

use crate::elements::changes::leaves::Leaf;
use std::alloc::{AllocError, Global};
use std::collections::BTreeSet;

/// The numbers of the paths of leaves that only one of two documents has, each once; and these as a set.
pub fn unmatched<'a>(
    alloc: Global,
    olds: &[Leaf<'a>],
    news: &[Leaf<'a>],
) -> Result<(Vec<usize>, BTreeSet<usize>), AllocError>
    ensures paths { IfOk result (λ found. found.0.items ≡ fold with_number [] (lacking olds.now news.now ++ lacking news.now olds.now)) }
    ensures known { IfOk result (λ found. AreKnown found.1 found.0.items) }
{
    let mut paths = Vec::new(alloc);
    let mut known = BTreeSet::new(alloc);
    add_missing(&mut paths, &mut known, olds, &set_of(alloc, news)?)?;
    add_missing(&mut paths, &mut known, news, &set_of(alloc, olds)?)?;
    Ok((paths, known))
}

/// These leaves as a set.
fn set_of<'a>(alloc: Global, leaves: &[Leaf<'a>]) -> Result<BTreeSet<Leaf<'a>>, AllocError>
    ensures { IfOk result (λ set. IsSetOf set leaves.now) }
{
    let mut set = BTreeSet::new(alloc);
    for leaf in leaves {
        set.insert(*leaf)?;
    }
    Ok(set)
}

/// Puts the paths of those leaves that aren't in a set after the others, unless they are known.
fn add_missing<'a>(
    paths: &mut Vec<usize>,
    known: &mut BTreeSet<usize>,
    leaves: &[Leaf<'a>],
    others: &BTreeSet<Leaf<'a>>,
) -> Result<(), AllocError>
    requires { AreKnown known.old paths.old.items }
    ensures added { OnOk result (paths.new.items ≡ fold with_number paths.old.items (lacking_in others.now leaves.now)) }
    ensures known { OnOk result (AreKnown known.new paths.new.items) }
{
    for leaf in leaves {
        add_unless(paths, known, *leaf, others)?;
    }
    Ok(())
}

/// Puts the path of a leaf after the others, unless a set has the leaf, or the path is known.
fn add_unless<'a>(
    paths: &mut Vec<usize>,
    known: &mut BTreeSet<usize>,
    leaf: Leaf<'a>,
    others: &BTreeSet<Leaf<'a>>,
) -> Result<(), AllocError>
    requires { AreKnown known.old paths.old.items }
    ensures added { OnOk result (paths.new.items ≡ fold with_number paths.old.items (number_unless_in others.now leaf.entry)) }
    ensures known { OnOk result (AreKnown known.new paths.new.items) }
{
    if others.contains(&leaf) {
        return Ok(());
    }
    add_path(paths, known, leaf.path)
}

/// Puts a path after the others, unless it is known.
fn add_path(
    paths: &mut Vec<usize>,
    known: &mut BTreeSet<usize>,
    path: usize,
) -> Result<(), AllocError>
    requires { AreKnown known.old paths.old.items }
    ensures added { OnOk result (paths.new.items ≡ with_number paths.old.items path) }
    ensures known { OnOk result (AreKnown known.new paths.new.items) }
{
    if known.insert(path)? {
        paths.push(path)?;
    }
    Ok(())
}
