//! A builder of documents in the caller's room, as C keeps it.

ghost use Rattle.std.specs.Prelude.{◌≡◌, ◌<◌, ◌+◌, ◌↔◌, length, pos, IsTrue};
ghost use Rattle.bsonraw_c.specs.Build.{Appends, AppendsElement, Begins, CancelsLevel, ClosesLevel, EndsLevel, TakesMore, HoldsAgain, HoldsDocument, HoldsEnded, HoldsLevel, HoldsMore, IsBegun, IsElementOf, IsOpenIn, IsReadElement, OpensLevel, RefusesMisuse, TakesLevel, before_level};
ghost use Rattle.bsonraw_c.specs.Codes.{status_code};

use crate::build_bytes::{put_at, put_len};
use crate::build_parts::{Layout, Parts, kind_of};
use crate::codes::Status;
use crate::iter::Iter;
use crate::value::element_at;
use raw_bson::ElementType;

/// The most bytes that a document has, and the most elements that are counted.
pub const MOST: u32 = 2147483647;

/// A level that isn't ended yet: a document or an array, whose elements so far are in the room.
#[repr(C)]
#[derive(Clone, Copy)]
pub struct Builder {
    /// how many bytes of the room are taken: where the next element begins
    pub len: u32,
    /// where the level begins
    pub begins: u32,
    /// how many elements it has
    pub count: u32,
    /// 3 a document, 4 an array
    pub tag: u32,
    /// how the calls so far ended: what was refused first, or that there wasn't enough room
    pub status: i32,
}

/// Begins a document at the front of the room.
#[unsafe(no_mangle)]
pub extern "C" fn bsonraw_builder_begin(builder: &mut Builder, room: &[u8]) -> i32
    ensures begins { Begins room.now builder.new }
    ensures status { result ≡ builder.new.status }
{
    let status = if room.len() < 4 {
        Status::SmallBuffer
    } else {
        Status::Done
    };
    *builder = Builder {
        len: 4,
        begins: 0,
        count: 0,
        tag: 3,
        status: status.number(),
    };
    builder.status
}

/// Ends a document, which is then at the front of the room.
#[unsafe(no_mangle)]
pub extern "C" fn bsonraw_builder_end(builder: &mut Builder, room: &mut [u8]) -> i32
    ensures closes { ClosesLevel builder.old builder.new room.old room.new }
    ensures holds { HoldsDocument builder.old builder.new room.old room.new }
    ensures status { result ≡ builder.new.status }
{
    builder.close(room);
    builder.status
}

/// Appends the element of this tag, whose payload is made of one part or two. In an array its key is the next number.
#[unsafe(no_mangle)]
pub extern "C" fn bsonraw_append(
    builder: &mut Builder,
    room: &mut [u8],
    tag: u32,
    key: &[u8],
    one: &[u8],
    two: &[u8],
) -> i32
    ensures appends { Appends tag key.now one.now two.now builder.old builder.new room.old room.new }
    ensures holds { HoldsMore (IsReadElement builder.old tag key.now one.now two.now)
        builder.old builder.new room.old room.new }
    ensures status { result ≡ builder.new.status }
{
    if !builder.goes_on() {
        return builder.status;
    }
    builder.append(room, tag, key, one, two);
    builder.status
}

/// Appends the element that an iterator is at, as it is. In an array its key is the next number.
#[unsafe(no_mangle)]
pub extern "C" fn bsonraw_append_iter(
    builder: &mut Builder,
    room: &mut [u8],
    iter: &Iter,
    bytes: &[u8],
) -> i32
    ensures appends { AppendsElement bytes.now iter.now builder.old builder.new room.old room.new }
    ensures holds { HoldsMore (IsElementOf builder.old bytes.now iter.now)
        builder.old builder.new room.old room.new }
    ensures status { result ≡ builder.new.status }
{
    if !builder.goes_on() {
        return builder.status;
    }
    builder.append_iter(room, iter, bytes);
    builder.status
}

/// Begins a document or an array in the level that the builder has. The new builder has it; the old one may be used again after
/// it is ended.
#[unsafe(no_mangle)]
pub extern "C" fn bsonraw_append_begin(
    builder: &Builder,
    room: &mut [u8],
    tag: u32,
    key: &[u8],
    level: &mut Builder,
) -> i32
    ensures opens { OpensLevel tag key.now builder.now level.new room.old room.new }
    ensures holds { HoldsLevel tag key.now builder.now level.new room.old room.new }
    ensures status { result ≡ level.new.status }
{
    *level = *builder;
    if !level.goes_on() {
        return level.status;
    }
    level.open(room, tag, key);
    level.status
}

/// Ends a document or an array, which is then an element of the level that the builder has.
#[unsafe(no_mangle)]
pub extern "C" fn bsonraw_append_end(builder: &mut Builder, room: &mut [u8], level: &Builder) -> i32
    ensures ends { EndsLevel level.now builder.old builder.new room.old room.new }
    ensures holds { HoldsEnded level.now builder.old builder.new room.old room.new }
    ensures status { result ≡ builder.new.status }
{
    if !builder.goes_on() {
        return builder.status;
    }
    builder.end(room, level);
    builder.status
}

/// Takes back a level that is open in the builder, with all that is in it.
#[unsafe(no_mangle)]
pub extern "C" fn bsonraw_append_cancel(builder: &mut Builder, level: &mut Builder) -> i32
    ensures cancels { CancelsLevel level.old level.new builder.old builder.new }
    ensures holds { HoldsAgain builder.old builder.new }
    ensures status { result ≡ builder.new.status }
{
    if level.is_open_in(builder) {
        builder.take_back();
        if !level.goes_on() {
            builder.status = level.status;
        }
        level.begins = level.len;
    } else {
        builder.refuse_misuse();
    }
    builder.status
}

impl Builder {
    /// Whether nothing was refused so far; there may have been too little room.
    #[inline(always)]
    pub fn goes_on(&self) -> bool
        ensures { IsTrue result ↔ TakesMore self.now }
    {
        self.status == 0 || self.status == 8
    }

    /// Whether the level's length has its four bytes, as that of each builder that a call has begun.
    #[inline(always)]
    pub fn is_begun(&self) -> bool
        ensures { IsTrue result ↔ IsBegun self.now }
    {
        4 <= self.len && self.begins <= self.len - 4
    }

    /// Says this status from now on.
    #[inline(always)]
    pub fn refuse(&mut self, status: Status)
        ensures { self.new ≡ record self.old { status = pos (status_code status) } }
    {
        self.status = status.number();
    }

    /// Whether the level is open in the builder, as the header's calls note it there, and no level is open in the level.
    fn is_open_in(&self, builder: &Builder) -> bool
        ensures { IsTrue result ↔ IsOpenIn self.now builder.now }
    {
        0 <= self.status
            && self.begins < self.len
            && 0 < self.begins
            && i64::from(builder.status) + i64::from(self.begins) == 0
    }

    /// Becomes what it was before the level that is open in it was begun.
    fn take_back(&mut self)
        ensures { self.new ≡ before_level self.old }
    {
        if 256 <= self.tag {
            self.tag -= 256;
            self.status = 8;
        } else {
            self.status = 0;
        }
    }

    /// Says that a call was out of turn from now on, unless it said another refusal before.
    fn refuse_misuse(&mut self)
        ensures { RefusesMisuse self.old self.new }
    {
        if self.status <= 0 || self.status == 8 {
            self.refuse(Status::Misuse);
        }
    }

    /// Appends the element of this tag with these parts.
    #[inline(always)]
    fn append(&mut self, room: &mut [u8], tag: u32, key: &[u8], one: &[u8], two: &[u8])
        requires { TakesMore self.old }
        ensures { Appends tag key.now one.now two.now self.old self.new room.old room.new }
    {
        if !self.is_begun() {
            return self.refuse(Status::BadOffset);
        }
        let Some(kind) = kind_of(tag) else {
            return self.refuse(Status::OtherKind);
        };
        match Layout::of(kind) {
            Layout::Fixed(len) => self.append_fixed(room, kind, len, key, one),
            Layout::Text => self.append_text(room, kind, key, one),
            layout => {
                let parts = Parts {
                    kind,
                    layout,
                    one,
                    two,
                };
                self.append_parts(room, key, parts);
            }
        }
    }

    /// Appends the element that an iterator is at.
    #[inline(always)]
    fn append_iter(&mut self, room: &mut [u8], iter: &Iter, bytes: &[u8])
        requires { TakesMore self.old }
        ensures { AppendsElement bytes.now iter.now self.old self.new room.old room.new }
    {
        if !self.is_begun() {
            return self.refuse(Status::BadOffset);
        }
        let Some(element) = element_at(iter, bytes) else {
            return self.refuse(Status::BadOffset);
        };
        let key = element.key().as_bytes();
        self.add_under(room, element.element_type(), key, element.payload());
    }

    /// Becomes the builder of a level in its own.
    fn open(&mut self, room: &mut [u8], tag: u32, key: &[u8])
        requires { TakesMore self.old }
        ensures { OpensLevel tag key.now self.old self.new room.old room.new }
    {
        if !self.is_begun() {
            return self.refuse(Status::BadOffset);
        }
        let kind = match tag {
            3 => ElementType::EmbeddedDocument,
            4 => ElementType::Array,
            _ => return self.refuse(Status::OtherKind),
        };
        self.add_under(room, kind, key, &[0; 4]);
        if self.goes_on() {
            self.begins = self.len - 4;
            self.count = 0;
            self.tag = tag;
        }
    }

    /// Puts the final 0 of the level, and its length.
    fn close(&mut self, room: &mut [u8])
        ensures { ClosesLevel self.old self.new room.old room.new }
    {
        if !self.goes_on() {
            return;
        }
        if !self.is_begun() {
            return self.refuse(Status::BadOffset);
        }
        if MOST <= self.len {
            return self.refuse(Status::TooLong);
        }
        let begins = self.begins as usize;
        let end = self.len as usize;
        self.len += 1;
        if room.len() <= end {
            self.refuse(Status::SmallBuffer);
        } else {
            put_at(room, end, &[0]);
            put_len(room, begins, end + 1 - begins);
        }
    }

    /// Ends a level, and takes it as an element.
    #[inline(always)]
    fn end(&mut self, room: &mut [u8], level: &Builder)
        requires { TakesMore self.old }
        ensures { EndsLevel level.now self.old self.new room.old room.new }
    {
        if !self.is_begun() {
            return self.refuse(Status::BadOffset);
        }
        if MOST <= self.count {
            return self.refuse(Status::TooLong);
        }
        let mut closed = *level;
        closed.close(room);
        self.take_level(closed);
    }

    /// Takes a level that is closed as an element.
    #[inline(always)]
    fn take_level(&mut self, level: Builder)
        requires { self.old.count < 2147483647 }
        ensures { TakesLevel self.old level self.new }
    {
        if level.goes_on() {
            self.len = level.len;
            self.count += 1;
        }
        if level.status != 0 {
            self.status = level.status;
        }
    }
}
