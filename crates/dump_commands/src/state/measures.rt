//! What was gathered of the lengths of documents.
#![tactic(auto)]

ghost use Rattle.std.specs.Prelude.{◌≡◌, ◌<◌, ◌≤◌, ◌++◌, ◌∷◌, [], IfErr, OnOk, length, map, nat_lt};
ghost use Rattle.std.specs.List.{position_or_len};
ghost use Rattle.dump_commands.specs.state.Measures.{IsInRange, measures_of, no_measures, ranked_among, ranked_of, share_of, with_length, with_one, with_ranked, with_share};
ghost use Rattle.dump_commands.specs.state.Measures as says;
ghost use Rattle.dump_io.specs.lines.Failing.{IsReading};
ghost use Rattle.dump_io.specs.lines.Origins.{origin_of};

use dump_io::lines::failure::{Failure, in_range};
use dump_io::lines::origin::Origin;
use std::alloc::{AllocError, Global};

/// How many ranges of lengths are counted apart.
const RANGES: usize = 32;

/// One of the longest documents.
#[derive(Drop)]
pub struct Ranked<'a> {
    /// where it begins
    pub place: Origin<'a>,
    /// how many bytes it has
    pub size: usize,
    /// what shows its `_id`; empty where it has none that can be read
    pub id: Vec<u8>,
}

/// Documents one after the other.
#[derive(Clone, Copy)]
pub struct Share<'a> {
    /// where the first of them begins
    pub place: Origin<'a>,
    /// how many there are
    pub count: u64,
}

/// What was gathered of the lengths of documents.
#[derive(Drop)]
pub struct Measures<'a> {
    /// how many have a length in each range: of 2 to the power of its number bytes, or more, up to the next
    pub ranges: [u64; RANGES],
    /// the longest, the longest of them first
    pub largest: Vec<Ranked<'a>>,
    /// the shares of each stretch
    pub shares: Vec<Share<'a>>,
}

/// The number of the range in which a length is.
pub fn range_of(len: usize) -> usize
    ensures { IsInRange len result }
{
    let mut number = 0;
    let mut least = 1;
    'doubling: while number + 1 < RANGES && least <= len / 2 {
        least *= 2;
        number += 1;
    }
    number
}

impl<'a> Measures<'a> {
    /// Nothing was gathered.
    pub fn new(alloc: Global) -> Measures<'a>
        ensures { measures_of result ≡ no_measures }
    {
        Measures {
            ranges: [0; RANGES],
            largest: Vec::new(alloc),
            shares: Vec::new(alloc),
        }
    }

    /// A document more whose length is in the range with this number.
    pub fn add_length(&mut self, number: usize) -> Result<(), Failure>
        requires { number < 32 }
        ensures added { OnOk result (measures_of self.new ≡ with_length number (measures_of self.old)) }
        ensures failed { IfErr result (λ failure. ¬ IsReading failure) }
    {
        self.ranges[number] = in_range(self.ranges[number].checked_add(1))?;
        Ok(())
    }

    /// A document more of those of which the longest `most` are kept.
    pub fn add_ranked(&mut self, most: usize, document: Ranked<'a>) -> Result<(), AllocError>
        ensures { OnOk result (measures_of self.new ≡ with_ranked most (ranked_of document.entry) (measures_of self.old)) }
    {
        insert(&mut self.largest, document)?;
        self.largest.truncate(most);
        Ok(())
    }

    /// A document more that begins there, where each share is of another stretch of this many bytes.
    pub fn add_divided(&mut self, stretch: u64, place: Origin<'a>) -> Result<(), Failure>
        ensures added { OnOk result (measures_of self.new ≡ with_share stretch (origin_of place.entry) (measures_of self.old)) }
        ensures failed { IfErr result (λ failure. ¬ IsReading failure) }
    {
        add_to_last(&mut self.shares, stretch, place)
    }
}

/// A document more of the last share, or of the next one.
fn add_to_last<'a>(
    shares: &mut Vec<Share<'a>>,
    stretch: u64,
    place: Origin<'a>,
) -> Result<(), Failure>
    ensures added { OnOk result (map share_of shares.new.items ≡ with_one stretch (origin_of place.entry) (map share_of shares.old.items)) }
    ensures failed { IfErr result (λ failure. ¬ IsReading failure) }
{
    let first = Share { place, count: 1 };
    let Some(last) = shares.pop() else {
        push_share(shares, first)?;
        return Ok(());
    };
    if is_in_share(&last, stretch, place) {
        let count = in_range(last.count.checked_add(1))?;
        push_share(shares, Share { count, ..last })?;
        return Ok(());
    }
    push_share(shares, last)?;
    push_share(shares, first)?;
    Ok(())
}

fn push_share<'a>(shares: &mut Vec<Share<'a>>, share: Share<'a>) -> Result<(), AllocError>
    ensures { OnOk result (shares.new.items ≡ shares.old.items ++ share.entry ∷ []) }
{
    shares.push(share)?;
    Ok(())
}

/// Whether a document that begins there is in a share: it comes after the first one, in the same stretch of this many bytes.
fn is_in_share(share: &Share<'_>, stretch: u64, place: Origin<'_>) -> bool
    ensures { result ≡ says.is_in_share stretch (share_of share.now) (origin_of place.entry) }
{
    let stretch = stretch.max(1);
    share.place.offset < place.offset && share.place.offset / stretch == place.offset / stretch
}

/// Puts a document before the first that is shorter.
fn insert<'a>(largest: &mut Vec<Ranked<'a>>, document: Ranked<'a>) -> Result<(), AllocError>
    ensures { OnOk result (map ranked_of largest.new.items ≡ ranked_among (ranked_of document.entry) (map ranked_of largest.old.items)) }
{
    let place = place_of(largest, document.size);
    largest.insert(place, document)?;
    Ok(())
}

/// The place of the first document that is shorter.
fn place_of(largest: &[Ranked<'_>], size: usize) -> usize
    ensures first { result ≡ position_or_len (λ (s : says.Ranked). nat_lt s.size size) (map ranked_of largest.now) }
    ensures within { result ≤ length largest.now }
{
    let mut place = 0;
    'places: while place < largest.len() && largest[place].size >= size {
        place += 1;
    }
    place
}
