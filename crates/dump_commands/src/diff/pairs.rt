//! Which documents of two inputs differ.
#![tactic(auto)]

ghost use Rattle.std.specs.Prelude.{◌≡◌, ◌++◌, ◌∷◌, [], List, Some, IfErr, IfOk, IfSome, OnOk, cond, fold, length, map};
ghost use Rattle.std.specs.Option.{option_map};
ghost use Rattle.std.specs.BTreeMap.{Updates};
ghost use Rattle.std.specs.Cmp.Lexicographic.{slice_cmp};
ghost use Rattle.std.specs.Ordering.{nat_cmp};
ghost use Rattle.dump_commands.specs.diff.Numbering.{AreCounts, AreNumbered, number_at, sides_at, told_list};
ghost use Rattle.dump_commands.specs.diff.Pairs.{IsCompared, added, change_of, is_different, keyed, no_differences, told_after, told_by};
ghost use Rattle.dump_commands.specs.diff.Pairs as says;
ghost use Rattle.dump_commands.specs.diff.Sides.{side_of, sides_of};
ghost use Rattle.dump_commands.specs.diff.Sides as spec;
ghost use Rattle.dump_io.specs.lines.Failing.{IsReading};

use crate::diff::sides::{Side, Sides};
use crate::diff::twins::left;
use dump_io::lines::failure::{Failure, in_range};
use std::alloc::{AllocError, Global};
use std::collections::BTreeMap;

/// What is found of a document.
#[derive(Clone, Copy)]
pub enum Change<'a, 'b> {
    /// this one of NEW is its partner, and has another form
    Changed(&'b Side<'a>),
    /// it has no partner in NEW
    Removed,
    /// it has no partner in OLD
    Added,
}

/// A document of which something is found.
#[derive(Clone, Copy)]
pub struct Told<'a, 'b> {
    /// the document
    pub side: &'b Side<'a>,
    /// what is found of it
    pub change: Change<'a, 'b>,
}

/// How many documents there are of each kind.
#[derive(Clone, Copy)]
pub struct Differences {
    /// those that are the same in both
    pub same: u64,
    /// those that have another form in the other
    pub changed: u64,
    /// those of OLD alone
    pub removed: u64,
    /// those of NEW alone
    pub added: u64,
}

/// How many documents have each key, by its digest.
type Counts = BTreeMap<[u8; 32], usize>;

/// Documents by the digests of their keys, and by their numbers among those of their key.
type Numbered<'a, 'b> = BTreeMap<([u8; 32], usize), &'b Side<'a>>;

/// How many documents have a key.
fn count_at(counts: &Counts, key: &[u8; 32]) -> usize
    ensures { result ≡ number_at counts.now key.now }
{
    match counts.get(key) {
        Some(count) => *count,
        None => 0,
    }
}

/// One document more that has this key; returns how many came before it.
fn add_one(counts: &mut Counts, key: [u8; 32]) -> Result<usize, Failure>
    ensures before { IfOk result (λ n. n ≡ number_at counts.old key) }
    ensures counted { OnOk result ((ss : List spec.Side) (s : spec.Side) → s.key ≡ key → AreCounts ss counts.old → AreCounts (ss ++ s ∷ []) counts.new) }
    ensures failed { IfErr result (λ failure. ¬ IsReading failure) }
{
    let before = count_at(counts, &key);
    let now = in_range(before.checked_add(1))?;
    put_count(counts, key, now)?;
    Ok(before)
}

/// Puts how many documents have a key.
fn put_count(counts: &mut Counts, key: [u8; 32], count: usize) -> Result<(), AllocError>
    ensures { OnOk result (Updates (slice_cmp nat_cmp) counts.old counts.new key (Some count)) }
{
    counts.insert(key, count)?;
    Ok(())
}

/// Documents by their keys and their numbers.
fn numbered<'a, 'b>(alloc: Global, sides: &[&'b Side<'a>]) -> Result<Numbered<'a, 'b>, Failure>
    ensures numbered { IfOk result (AreNumbered (sides_at sides.now)) }
    ensures failed { IfErr result (λ failure. ¬ IsReading failure) }
{
    let mut counts = BTreeMap::new(alloc);
    let mut all = BTreeMap::new(alloc);
    for side in sides {
        let number = add_one(&mut counts, side.key)?;
        put_side(&mut all, number, side)?;
    }
    Ok(all)
}

/// Puts a document with this number among those of its key.
fn put_side<'a, 'b>(
    all: &mut Numbered<'a, 'b>,
    number: usize,
    side: &'b Side<'a>,
) -> Result<(), AllocError>
    ensures { OnOk result ((ss : List spec.Side) → number ≡ length (keyed (side_of side.entry.now).key ss)
        → AreNumbered ss all.old → AreNumbered (ss ++ side_of side.entry.now ∷ []) all.new) }
{
    all.insert((side.key, number), side)?;
    Ok(())
}

/// What is found of a document of OLD with this partner.
fn told_old<'a, 'b>(side: &'b Side<'a>, partner: Option<&'b Side<'a>>) -> Told<'a, 'b>
    ensures { told_by result ∷ [] ≡ says.told_old (side_of side.entry.now) (option_map (λ s. side_of s.now) partner.entry) }
{
    let change = match partner {
        None => Change::Removed,
        Some(new) => Change::Changed(new),
    };
    Told { side, change }
}

/// Puts what is found of the documents of OLD after the others, and returns how many of them have each key.
fn tell_olds<'a, 'b>(
    alloc: Global,
    olds: &[&'b Side<'a>],
    news: &[&'b Side<'a>],
    told: &mut Vec<Told<'a, 'b>>,
) -> Result<Counts, Failure>
    ensures told { OnOk result (map told_by told.new.items
        ≡ map told_by told.old.items ++ told_after says.told_old (sides_at news.now) [] (sides_at olds.now)) }
    ensures counted { IfOk result (AreCounts (sides_at olds.now)) }
    ensures failed { IfErr result (λ failure. ¬ IsReading failure) }
{
    let news = numbered(alloc, news)?;
    let mut counts = BTreeMap::new(alloc);
    for side in olds {
        let number = add_one(&mut counts, side.key)?;
        let partner = news.get(&(side.key, number)).copied();
        push_some(told, Some(told_old(side, partner)))?;
    }
    Ok(counts)
}

/// Puts what is found of the documents of NEW after the others, where this is how many of OLD have each key.
fn tell_news<'a, 'b>(
    alloc: Global,
    olds: &Counts,
    news: &[&'b Side<'a>],
    told: &mut Vec<Told<'a, 'b>>,
) -> Result<(), Failure>
    ensures told { OnOk result ((ss : List spec.Side) → AreCounts ss olds.now
        → map told_by told.new.items ≡ map told_by told.old.items ++ told_after says.told_new ss [] (sides_at news.now)) }
    ensures failed { IfErr result (λ failure. ¬ IsReading failure) }
{
    let mut counts = BTreeMap::new(alloc);
    for side in news {
        let number = add_one(&mut counts, side.key)?;
        push_some(told, told_new(side, number < count_at(olds, &side.key)))?;
    }
    Ok(())
}

/// What is found of a document of NEW, if anything is; it has a partner or none.
fn told_new<'a, 'b>(side: &'b Side<'a>, has_partner: bool) -> Option<Told<'a, 'b>>
    ensures { told_list result ≡ cond has_partner [] ((side_of side.entry.now, added) ∷ []) }
{
    if has_partner {
        return None;
    }
    Some(Told {
        side,
        change: Change::Added,
    })
}

fn push_some<'a, 'b>(
    told: &mut Vec<Told<'a, 'b>>,
    one: Option<Told<'a, 'b>>,
) -> Result<(), AllocError>
    ensures { OnOk result (map told_by told.new.items ≡ map told_by told.old.items ++ told_list one.entry) }
{
    if let Some(one) = one {
        told.push(one)?;
    }
    Ok(())
}

/// What is found of the documents of two inputs.
#[derive(Drop)]
pub struct Compared<'a, 'b> {
    /// those that aren't the same in both
    pub told: Vec<Told<'a, 'b>>,
    /// how many there are of each kind
    pub differences: Differences,
}

/// Compares the documents of two inputs.
pub fn compare<'a, 'b>(alloc: Global, sides: &'b Sides<'a>) -> Result<Compared<'a, 'b>, Failure>
    ensures compared { IfOk result (IsCompared (sides_of sides.entry.now)) }
    ensures failed { IfErr result (λ failure. ¬ IsReading failure) }
{
    let olds = left(alloc, &sides.olds, &sides.news)?;
    let news = left(alloc, &sides.news, &sides.olds)?;
    let same = sides.olds.len().saturating_sub(olds.len());
    let mut told = Vec::new(alloc);
    let counts = tell_olds(alloc, &olds, &news, &mut told)?;
    tell_news(alloc, &counts, &news, &mut told)?;
    let differences = counted(same as u64, &told)?;
    Ok(Compared { told, differences })
}

/// How many documents there are of each kind, of which this many are the same.
fn counted(same: u64, told: &[Told<'_, '_>]) -> Result<Differences, Failure>
    ensures counted { IfOk result (λ n. n ≡ fold says.count_told (no_differences same) (map told_by told.now)) }
    ensures failed { IfErr result (λ failure. ¬ IsReading failure) }
{
    let mut differences = Differences {
        same,
        changed: 0,
        removed: 0,
        added: 0,
    };
    for one in told {
        differences = in_range(differences.with(one.change))?;
    }
    Ok(differences)
}

impl Differences {
    /// One document more of which this is found; `None` where a count would be over its range.
    fn with(self, change: Change<'_, '_>) -> Option<Differences>
        ensures { (s : spec.Side) → IfSome result (λ n. n ≡ says.count_told self (s, change_of change.entry)) }
    {
        Some(match change {
            Change::Changed(_) => Differences {
                changed: self.changed.checked_add(1)?,
                ..self
            },
            Change::Removed => Differences {
                removed: self.removed.checked_add(1)?,
                ..self
            },
            Change::Added => Differences {
                added: self.added.checked_add(1)?,
                ..self
            },
        })
    }

    /// Whether some document isn't the same in both.
    pub fn is_different(self) -> bool
        ensures { result ≡ is_different self }
    {
        self.changed > 0 || self.removed > 0 || self.added > 0
    }
}
