//! Goes on in an input after bytes where no document begins, and after lengths that aren't believed.
#![tactic(auto)]

ghost use Rattle.std.specs.Prelude.{◌≡◌, ◌≤◌, ◌<◌, ◌+◌, IfErr, IfOk, length, take};
ghost use Rattle.dump_io.specs.input.Cut.{IsPiece};
ghost use Rattle.dump_io.specs.input.Reading.{GoesAhead, IsWindow, Stays, ahead_of, offset_of};
ghost use Rattle.dump_io.specs.input.Resync.{Doubts, GoesElsewhere, LooksBehind, Sees, SkipsTo, reached};
ghost use Rattle.dump_io.specs.lines.Failing.{IsReading};
ghost use Rattle.raw_resync.specs.Seeking.{IsWork};

use crate::input::ending::Ending;
use crate::input::window::{Next, Window, look_ahead};
use crate::lines::failure::{Failure, in_range};
use raw_resync::{BEFORE_PLACE, Length, Part, Places, Sought, Work, explain_length, seek};
use raw_tree::Limits;
use std::alloc::Global;
use std::io::Read;

/// What was passed over.
#[derive(Clone, Copy)]
pub struct Skip {
    /// how many bytes, after which documents go on
    pub count: u64,
    /// whether each place in them was checked; a place isn't if that would cost too much
    pub all: bool,
}

/// The bytes ahead as a part of the input, which ends after them or may go on.
fn part_of(window: &Window, is_last: bool, limits: Limits) -> Part<'_>
    requires { IsWindow window.now }
    ensures bytes { result.bytes.now ≡ ahead_of window.now }
    ensures last { result.is_last ≡ is_last }
    ensures at { result.at ≡ window.now.offset }
    ensures limits { result.limits ≡ limits }
{
    Part {
        bytes: window.ahead(),
        is_last,
        at: window.offset(),
        limits,
    }
}

/// Passes over bytes, at least one, until documents go on.
pub fn pass_over<R: Read>(
    alloc: Global,
    reader: &mut R,
    window: &mut Window,
    limits: Limits,
    work: &mut Work,
) -> Result<Skip, Failure>
    requires { IsWindow window.old × IsWork work.old × (0 < length (ahead_of window.old)) }
    ensures skips { IfOk result (SkipsTo limits (reached (R.remaining reader.old) window.old work.old) (reached (R.remaining reader.new) window.new work.new)) }
    ensures fails { IfErr result (λ failure. IsReading failure → GoesAhead (R.remaining reader.old) (R.remaining reader.new) window.old window.new) }
{
    let start = window.offset();
    let mut from = 1;
    let mut is_last = false;
    let mut are_all = true;
    for _ in 0..u64::MAX {
        let places = Places {
            from,
            until: usize::MAX,
        };
        match seek(alloc, part_of(window, is_last, limits), places, work)? {
            Sought::Found { place, all } => {
                window.pass(place)?;
                return Ok(Skip {
                    count: window.offset() - start,
                    all: are_all && all,
                });
            }
            Sought::Wants { place, count, all } => {
                from = place.min(BEFORE_PLACE);
                let count_passed = place - from;
                window.pass(count_passed)?;
                is_last = !window.look(reader, count - count_passed)?;
                are_all = are_all && all;
            }
            Sought::Nowhere { all: _ } => unreachable!(),
        }
    }
    Err(Failure::TooLarge)
}

/// Places among the bytes ahead, counted from the end of the first `base` bytes. These aren't looked at.
#[derive(Clone, Copy)]
struct Search {
    base: usize,
    /// the first place
    from: usize,
    /// the place after the last
    until: usize,
}

/// What is seen at places ahead.
#[derive(Clone, Copy)]
struct Seen {
    /// whether documents go on at one of them
    goes_on: bool,
    /// whether each place was checked, up to that one
    all: bool,
}

/// Whether the first document ahead, of `len` bytes, is damaged and its length isn't believed: its elements don't follow one
/// another up to its end, and documents go on inside it, or don't go on after it.
pub fn is_doubted<R: Read>(
    alloc: Global,
    reader: &mut R,
    window: &mut Window,
    limits: Limits,
    len: usize,
    work: &mut Work,
) -> Result<bool, Failure>
    requires { IsWindow window.old × IsWork work.old × (len ≤ length (ahead_of window.old)) × IsPiece limits.bytes (take len (ahead_of window.old)) }
    ensures doubts { IfOk result (Doubts limits (reached (R.remaining reader.old) window.old work.old) (reached (R.remaining reader.new) window.new work.new) len) }
    ensures fails { IfErr result (λ _. Stays (R.remaining reader.old) (R.remaining reader.new) window.old window.new) }
{
    match explain_length(part_of(window, false, limits), len, work) {
        Length::Explained => Ok(false),
        Length::LeftOut => Ok(false),
        Length::Unexplained => goes_on_elsewhere(alloc, reader, window, limits, len, work),
    }
}

/// Whether documents go on inside the first `len` bytes ahead, or don't go on after them.
fn goes_on_elsewhere<R: Read>(
    alloc: Global,
    reader: &mut R,
    window: &mut Window,
    limits: Limits,
    len: usize,
    work: &mut Work,
) -> Result<bool, Failure>
    requires { IsWindow window.old × IsWork work.old × (1 ≤ len) × (len ≤ length (ahead_of window.old)) }
    ensures goes { IfOk result (GoesElsewhere limits (reached (R.remaining reader.old) window.old work.old) (reached (R.remaining reader.new) window.new work.new) len) }
    ensures fails { IfErr result (λ _. Stays (R.remaining reader.old) (R.remaining reader.new) window.old window.new) }
{
    let inside = Search {
        base: 0,
        from: 1,
        until: len,
    };
    let seen = see(alloc, reader, window, limits, inside, work)?;
    if seen.goes_on {
        return Ok(true);
    }
    stands_alone(alloc, reader, window, limits, len, work)
}

/// Whether documents don't go on after the first `len` bytes ahead. If that place is left out, false.
pub fn stands_alone<R: Read>(
    alloc: Global,
    reader: &mut R,
    window: &mut Window,
    limits: Limits,
    len: usize,
    work: &mut Work,
) -> Result<bool, Failure>
    requires { IsWindow window.old × IsWork work.old × (len ≤ length (ahead_of window.old)) }
    ensures looks { IfOk result (LooksBehind limits (reached (R.remaining reader.old) window.old work.old) (reached (R.remaining reader.new) window.new work.new) len) }
    ensures fails { IfErr result (λ _. Stays (R.remaining reader.old) (R.remaining reader.new) window.old window.new) }
{
    let behind = Search {
        base: len,
        from: 0,
        until: 1,
    };
    let seen = see(alloc, reader, window, limits, behind, work)?;
    Ok(seen.all && !seen.goes_on)
}

/// The offset in the input of the byte after the first `base` ahead. Fails if it is over its range.
fn offset_behind(window: &Window, base: usize) -> Result<u64, Failure>
    ensures { IfOk result (λ at. at ≡ offset_of window.now + base) }
{
    in_range(window.offset().checked_add(base as u64))
}

/// Whether documents go on at one of these places.
fn see<R: Read>(
    alloc: Global,
    reader: &mut R,
    window: &mut Window,
    limits: Limits,
    search: Search,
    work: &mut Work,
) -> Result<Seen, Failure>
    requires { IsWindow window.old × IsWork work.old × (search.from ≤ search.until) × (search.base + search.from ≤ length (ahead_of window.old)) }
    ensures sees { IfOk result (Sees limits (reached (R.remaining reader.old) window.old work.old) (reached (R.remaining reader.new) window.new work.new) search) }
    ensures fails { IfErr result (λ _. Stays (R.remaining reader.old) (R.remaining reader.new) window.old window.new) }
{
    let at = offset_behind(window, search.base)?;
    let mut from = search.from;
    let mut is_last = false;
    let mut are_all = true;
    for _ in 0..u64::MAX {
        let part = Part {
            bytes: window.ahead().split_at(search.base).1,
            is_last,
            at,
            limits,
        };
        let places = Places {
            from,
            until: search.until,
        };
        match seek(alloc, part, places, work)? {
            Sought::Found { place: _, all } => {
                return Ok(Seen {
                    goes_on: true,
                    all: are_all && all,
                });
            }
            Sought::Nowhere { all } => {
                return Ok(Seen {
                    goes_on: false,
                    all: are_all && all,
                });
            }
            Sought::Wants { place, count, all } => {
                is_last = !window.look(reader, search.base.saturating_add(count))?;
                from = place;
                are_all = are_all && all;
            }
        }
    }
    Err(Failure::TooLarge)
}
