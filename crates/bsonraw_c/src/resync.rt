ghost use Rattle.std.specs.Prelude.{◌≡◌, ◌<◌, ◌^◌, IfNone, IfOk, IfSome, IsTrue, ◌↔◌, length, true};
ghost use Rattle.raw_resync.specs.Charge.{IsBounded};
ghost use Rattle.raw_resync.specs.Seeking.{IsWork, LacksPiece};
ghost use Rattle.bsonraw_c.specs.Resync.{BeginsPiece, FindsFirst, GoesInside, GoesOnward, LooksAtEnd, LooksBehind, IsInput, LeavesWork, Resyncs, damage_of, work_of};

use crate::codes::Status;
use crate::reader::Reader;
use raw_bson::Limits;
use raw_resync::{Length, Part, Places, Sought, Work, explain_length, seek};
use std::alloc::{AllocError, Global};

/// What the searches in a buffer cost so far, and what the last one found.
#[repr(C)]
#[derive(Clone, Copy)]
pub struct Resync {
    /// how many bytes were charged
    pub spent: u64,
    /// the furthest end of what was looked into
    pub reach: u64,
    /// 1 where the length of the damaged document is believed; else 0
    pub is_believed: u32,
    /// 1 where a place wasn't looked at, since that could cost too much; else 0
    pub left_out: u32,
}

/// The most bytes of a buffer, so that eight times as many can be counted.
const MOST_BYTES: usize = 1 << 60;

/// Has a reader go on where documents do, after the damaged one that it is at, or after where it found none.
#[unsafe(no_mangle)]
pub extern "C" fn bsonraw_reader_resync(
    alloc: Global,
    reader: &mut Reader,
    bytes: &[u8],
    max_bytes: usize,
    max_depth: usize,
    resync: &mut Resync,
) -> i32
    ensures { Resyncs (record { bytes = max_bytes; depth = max_depth })
        bytes.now reader.old reader.new resync.old resync.new result }
{
    let damage = reader.damage() as usize;
    if bytes.len() <= damage || !resync.is_of(bytes) {
        return Status::BadOffset.number();
    }
    if MOST_BYTES < bytes.len() {
        return Status::TooManyBytes.number();
    }
    let part = Part {
        bytes: bytes.split_at(damage).1,
        is_last: true,
        at: damage as u64,
        limits: Limits {
            bytes: max_bytes,
            depth: max_depth,
        },
    };
    let mut work = resync.work();
    match go_on(alloc, part, &mut work) {
        Ok(onward) => {
            reader.next = (damage + onward.count) as u64;
            *resync = Resync::told(onward, work);
            Status::Done.number()
        }
        Err(AllocError) => Status::NoMemory.number(),
    }
}

impl Reader {
    /// Where the document that it is at begins; without one, where the last fault is.
    fn damage(&self) -> u64
        ensures { result ≡ damage_of self.now }
    {
        if self.document_len == 0 {
            self.fault.offset
        } else {
            self.document_at
        }
    }
}

impl Resync {
    /// Whether searches in these bytes can have cost this.
    fn is_of(&self, bytes: &[u8]) -> bool
        ensures { IsTrue result ↔ IsBounded (length bytes.now) (work_of self.now) }
    {
        self.spent as u128 <= 8 * self.reach as u128 && self.reach <= bytes.len() as u64
    }

    /// What the searches cost so far.
    fn work(&self) -> Work
        ensures { result ≡ work_of self.now }
    {
        Work {
            spent: self.spent as u128,
            reach: self.reach as u128,
        }
    }

    /// What a search found, and what it cost with those before.
    fn told(onward: Onward, work: Work) -> Resync
        requires { work.spent < 2 ^ 64 × (work.reach < 2 ^ 64) }
        ensures { LeavesWork onward work result }
    {
        Resync {
            spent: work.spent as u64,
            reach: work.reach as u64,
            is_believed: u32::from(onward.is_believed),
            left_out: u32::from(!onward.all),
        }
    }
}

/// Where documents go on after a damaged one.
#[derive(Clone, Copy)]
pub struct Onward {
    /// how many bytes after its first
    pub count: usize,
    /// whether that is where its length ends
    pub is_believed: bool,
    /// whether all that this rests on was looked at
    pub all: bool,
}

/// Where documents go on after the damaged one at the front of these bytes, the last of the input.
fn go_on(alloc: Global, part: Part<'_>, work: &mut Work) -> Result<Onward, AllocError>
    requires { IsInput part × IsWork work.old }
    ensures work { IsWork work.new }
    ensures onward { IfOk result (GoesOnward part.entry.limits part.entry.at part.entry.bytes.now work.old work.new) }
{
    match len_in_front(part) {
        Some(len) => behind_piece(alloc, part, len, work),
        None => first_place(alloc, part, work),
    }
}

/// The first place after the first byte where documents go on.
fn first_place(alloc: Global, part: Part<'_>, work: &mut Work) -> Result<Onward, AllocError>
    requires { IsInput part × IsWork work.old }
    ensures work { IsWork work.new }
    ensures place { IfOk result (FindsFirst part.entry.limits part.entry.at part.entry.bytes.now work.old work.new) }
{
    let places = Places {
        from: 1,
        until: usize::MAX,
    };
    match seek(alloc, part, places, work)? {
        Sought::Found { place, all } => Ok(Onward {
            count: place,
            is_believed: false,
            all,
        }),
        Sought::Nowhere { all: _ } => unreachable!(),
        Sought::Wants { .. } => unreachable!(),
    }
}

/// Where documents go on after a damaged one of `len` bytes: right after it, where its elements explain its length.
fn behind_piece(
    alloc: Global,
    part: Part<'_>,
    len: usize,
    work: &mut Work,
) -> Result<Onward, AllocError>
    requires { IsInput part × IsWork work.old × BeginsPiece part.limits.bytes part.bytes.now len }
    ensures work { IsWork work.new }
    ensures onward { IfOk result (GoesOnward part.entry.limits part.entry.at part.entry.bytes.now work.old work.new) }
{
    match explain_length(part, len, work) {
        Length::Explained => Ok(Onward {
            count: len,
            is_believed: true,
            all: true,
        }),
        Length::Unexplained => inside_or_behind(alloc, part, len, work),
        Length::LeftOut => Ok(Onward {
            count: len,
            is_believed: true,
            all: false,
        }),
    }
}

/// Where documents go on, where the elements of the damaged one of `len` bytes don't explain its length: right after it, if they go on
/// there and not inside; else at the first place.
fn inside_or_behind(
    alloc: Global,
    part: Part<'_>,
    len: usize,
    work: &mut Work,
) -> Result<Onward, AllocError>
    requires { IsInput part × IsWork work.old × BeginsPiece part.limits.bytes part.bytes.now len }
    ensures work { IsWork work.new }
    ensures onward { IfOk result (GoesInside part.entry.limits part.entry.at part.entry.bytes.now len work.old work.new) }
{
    let behind = look_behind(alloc, part, len, work)?;
    if behind.elsewhere {
        return first_place(alloc, part, work);
    }
    Ok(Onward {
        count: len,
        is_believed: true,
        all: behind.all,
    })
}

/// Where documents go on around a piece.
#[derive(Clone, Copy)]
pub struct Behind {
    /// whether they go on inside it, or not right after it
    pub elsewhere: bool,
    /// whether each place inside was looked at, and the one right after it
    pub all: bool,
}

/// Whether documents go on inside the piece of `len` bytes, or not right after it.
fn look_behind(
    alloc: Global,
    part: Part<'_>,
    len: usize,
    work: &mut Work,
) -> Result<Behind, AllocError>
    requires { IsInput part × IsWork work.old × BeginsPiece part.limits.bytes part.bytes.now len }
    ensures work { IsWork work.new }
    ensures behind { IfOk result (LooksBehind part.entry.limits part.entry.at part.entry.bytes.now len work.old work.new) }
{
    let places = Places {
        from: 1,
        until: len,
    };
    match seek(alloc, part, places, work)? {
        Sought::Found { place: _, all } => Ok(Behind {
            elsewhere: true,
            all,
        }),
        Sought::Nowhere { all } => look_at_end(alloc, part, len, all, work),
        Sought::Wants { .. } => unreachable!(),
    }
}

/// The same where they go on at no place inside; `all` says whether each was looked at.
fn look_at_end(
    alloc: Global,
    part: Part<'_>,
    len: usize,
    all: bool,
    work: &mut Work,
) -> Result<Behind, AllocError>
    requires { IsInput part × IsWork work.old × BeginsPiece part.limits.bytes part.bytes.now len }
    ensures work { IsWork work.new }
    ensures behind { IfOk result (LooksAtEnd part.entry.limits part.entry.at part.entry.bytes.now len work.old work.new all) }
{
    let rest = Part {
        bytes: part.bytes.split_at(len).1,
        is_last: true,
        at: part.at + len as u64,
        limits: part.limits,
    };
    let places = Places { from: 0, until: 1 };
    match seek(alloc, rest, places, work)? {
        Sought::Found { .. } => Ok(Behind {
            elsewhere: false,
            all,
        }),
        Sought::Nowhere { all: looked } => Ok(Behind {
            elsewhere: looked,
            all: false,
        }),
        Sought::Wants { .. } => unreachable!(),
    }
}

/// How many bytes the document at the front of these says it has, where it may have them and they are there.
fn len_in_front(part: Part<'_>) -> Option<usize>
    requires { IsInput part }
    ensures found { IfSome result (BeginsPiece part.entry.limits.bytes part.entry.bytes.now) }
    ensures none { IfNone result (LacksPiece part.entry.limits.bytes true part.entry.bytes.now) }
{
    let head = part.bytes.first_chunk::<4>()?;
    let len = u32::from_le_bytes(*head) as usize;
    if len < 5 || part.limits.bytes < len || part.bytes.len() < len {
        None
    } else {
        Some(len)
    }
}
