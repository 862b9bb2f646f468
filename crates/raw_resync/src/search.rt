//! The next place at which documents continue.
#![tactic(auto)]

ghost use Rattle.std.specs.Prelude.{◌≡◌, ◌≤◌, ◌<◌, ◌+◌, ℕ, IfOk, drop, get_or, length};
ghost use Rattle.raw_resync.specs.Seeking.{IsWork, LacksPiece, LacksPieces, Seeks};

use crate::check::{Check, Part, check_at};
use crate::work::Work;
use memchr::memchr2;
use std::alloc::{AllocError, Global};

/// The places to look at, counted from the first byte of a part.
#[derive(Clone, Copy)]
pub struct Places {
    /// the first place
    pub from: usize,
    /// the place after the last
    pub until: usize,
}

/// What is found at the places.
#[derive(Clone, Copy)]
pub enum Sought {
    /// documents continue at this place, and at none before
    Found {
        place: usize,
        /// whether every place before it was looked at
        all: bool,
    },
    /// documents continue at no place
    Nowhere {
        all: bool,
    },
    /// documents continue at no place before this one; for this one that many bytes are needed before it is known
    Wants {
        place: usize,
        count: usize,
        all: bool,
    },
}

/// Looks for the first place at which documents continue.
pub fn seek(
    alloc: Global,
    part: Part<'_>,
    places: Places,
    work: &mut Work,
) -> Result<Sought, AllocError>
    requires { IsWork work.old × (places.from ≤ length part.bytes.now) × (places.from ≤ places.until) }
    ensures work { IsWork work.new }
    ensures sought { IfOk result (Seeks part.entry.limits part.entry.bytes.now part.entry.is_last part.entry.at places work.old work.new) }
{
    let mut all = true;
    let mut place = places.from;
    'looks: while place < places.until {
        match check_at(alloc, part, place, work)? {
            Check::GoesOn => return Ok(Sought::Found { place, all }),
            Check::Stops => {}
            Check::LeftOut => all = false,
            Check::Wants(count) => return Ok(Sought::Wants { place, count, all }),
        }
        place = next_place(part, place, places.until);
    }
    Ok(Sought::Nowhere { all })
}

/// From this length on, the last byte of a length is at least 2.
const TOO_LONG: usize = 1 << 25;

/// The next place or a later one: no place between has a length that a document may have.
fn next_place(part: Part<'_>, place: usize, until: usize) -> usize
    requires { (place < length part.bytes.now) × (place < until) }
    ensures next { place < result }
    ensures within { result ≤ until }
    ensures inside { result ≤ length part.entry.bytes.now }
    ensures none { LacksPieces part.entry.limits.bytes part.entry.is_last part.entry.bytes.now place result }
{
    let next = place + 1;
    let end = part.bytes.len().min(until.saturating_add(3));
    if TOO_LONG <= part.limits.bytes || end <= next + 3 {
        return next;
    }
    match memchr2(0, 1, &part.bytes[next + 3..end]) {
        Some(count) => behind_zeros(part, next + count, end),
        None => end - 3,
    }
}

/// The first place from `place` on whose length isn't 0 by the bytes before `end`.
fn behind_zeros(part: Part<'_>, place: usize, end: usize) -> usize
    requires { (place + 3 < end) × (end ≤ length part.bytes.now) }
    ensures from { place ≤ result }
    ensures within { result + 3 ≤ end }
    ensures none { (j : ℕ) → place ≤ j → j < result → LacksPiece part.entry.limits.bytes part.entry.is_last (drop j part.entry.bytes.now) }
{
    let count = zeros_at_front(&part.bytes[place..end]);
    if count < 4 {
        return place;
    }
    place + count - 3
}

/// How many bytes at the front are 0.
fn zeros_at_front(bytes: &[u8]) -> usize
    ensures within { result ≤ length bytes.now }
    ensures zeros { (k : ℕ) → k < result → get_or bytes.now k 0 ≡ 0 }
{
    let mut count = 0;
    'bytes: while count < bytes.len() && bytes[count] == 0 {
        count += 1;
    }
    count
}
