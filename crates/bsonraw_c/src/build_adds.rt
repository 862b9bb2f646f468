//! Elements that are put into the room, and counted.

ghost use Rattle.std.specs.Prelude.{◌≡◌, ◌≢◌, ◌+◌, List, ℕ, IfSome, IfNone};
ghost use Rattle.raw_bson.specs.Format.{string_payload};
ghost use Rattle.raw_bson.specs.Kind.{tag_of};
ghost use Rattle.bsonraw_c.specs.Build.{Adds, Appends, AreParts, IsCText, IsOpen, IsTooLong, key_in, layout_of};
ghost use Rattle.bsonraw_c.specs.BuildParts.{AddsUnder, Claims, frame_of_parts, payload_of_parts};
ghost use Rattle.bsonraw_c.specs.declared.build_parts.Layout.TheVariants as layout;

use crate::build::{Builder, MOST};
use crate::build_bytes::{put_head, put_short, put_string};
use crate::build_parts::{Layout, Parts, is_c_text, is_text};
use crate::codes::Status;
use itoa::Buffer;
use raw_bson::ElementType;

impl Builder {
    /// Appends an element of a kind whose payload has `len` bytes.
    #[inline(always)]
    pub fn append_fixed(
        &mut self,
        room: &mut [u8],
        kind: ElementType,
        len: usize,
        key: &[u8],
        payload: &[u8],
    )
        requires open { IsOpen self.old }
        requires laid { layout_of kind ≡ layout.Fixed len }
        ensures { (two : List ℕ)
            → Appends (tag_of kind) key.now payload.now two self.old self.new room.old room.new }
    {
        if payload.len() == len {
            self.add_under(room, kind, key, payload);
        } else {
            self.refuse(Status::OtherKind);
        }
    }

    /// Appends an element of a kind whose payload is a string.
    #[inline(always)]
    pub fn append_text(&mut self, room: &mut [u8], kind: ElementType, key: &[u8], text: &[u8])
        requires open { IsOpen self.old }
        requires laid { layout_of kind ≡ layout.Text }
        ensures { (two : List ℕ)
            → Appends (tag_of kind) key.now text.now two self.old self.new room.old room.new }
    {
        if is_text(text) {
            self.add_text_under(room, kind, key, text);
        } else {
            self.refuse(Status::Fault);
        }
    }

    /// Appends the element of these parts, if they are as its kind wants them.
    #[inline(never)]
    pub fn append_parts(&mut self, room: &mut [u8], key: &[u8], parts: Parts<'_>)
        requires open { IsOpen self.old }
        requires laid { layout_of parts.kind ≡ parts.layout }
        ensures { Appends (tag_of parts.entry.kind) key.now parts.entry.one.now parts.entry.two.now
            self.old self.new room.old room.new }
    {
        match parts.layout.validate(parts.one, parts.two) {
            Ok(()) => self.add_parts_under(room, key, parts),
            Err(status) => self.refuse(status),
        }
    }

    /// Appends an element with this payload under this key, or in an array under the next number.
    #[inline(always)]
    pub fn add_under(&mut self, room: &mut [u8], kind: ElementType, key: &[u8], payload: &[u8])
        ensures { AddsUnder key.now kind payload.now self.old self.new room.old room.new }
    {
        let mut digits = Buffer::new();
        match self.next_key(&mut digits, key) {
            Some(key) => self.add(room, kind, key, payload),
            None => self.refuse(Status::Fault),
        }
    }

    /// The same of an element whose payload is a string.
    #[inline(always)]
    fn add_text_under(&mut self, room: &mut [u8], kind: ElementType, key: &[u8], text: &[u8])
        ensures { AddsUnder key.now kind (string_payload text.now) self.old self.new room.old room.new }
    {
        let mut digits = Buffer::new();
        match self.next_key(&mut digits, key) {
            Some(key) => self.add_text(room, kind, key, text),
            None => self.refuse(Status::Fault),
        }
    }

    /// The same of an element of these parts.
    fn add_parts_under(&mut self, room: &mut [u8], key: &[u8], parts: Parts<'_>)
        requires { AreParts parts.layout parts.one.now parts.two.now }
        ensures { AddsUnder key.now parts.entry.kind (payload_of_parts parts.entry)
            self.old self.new room.old room.new }
    {
        let mut digits = Buffer::new();
        match self.next_key(&mut digits, key) {
            Some(key) => self.add_parts(room, key, parts),
            None => self.refuse(Status::Fault),
        }
    }

    /// The key of the next element: its number in an array, else this key; none where that can't be a key.
    #[inline(always)]
    fn next_key<'a>(&self, digits: &'a mut Buffer, key: &'a [u8]) -> Option<&'a [u8]>
        ensures key { IfSome result (λ next. (next.now ≡ key_in self.now key.now) × IsCText next.now) }
        ensures none { IfNone result ((self.now.tag ≢ 4) × ¬ IsCText key.now) }
    {
        if self.tag == 4 {
            return Some(digits.format(self.count).as_bytes());
        }
        if is_c_text(key) { Some(key) } else { None }
    }

    /// Appends an element with this payload under this key.
    #[inline(always)]
    fn add(&mut self, room: &mut [u8], kind: ElementType, key: &[u8], payload: &[u8])
        ensures { Adds (record { kind = kind; key = key.now; payload = payload.now })
            self.old self.new room.old room.new }
    {
        let size = payload.len().saturating_add(key.len()).saturating_add(2);
        if let Some(at) = self.claim(room.len(), size) {
            put_head(room, at, kind.to_tag(), key);
            put_short(room, at + key.len() + 2, payload);
        }
    }

    /// Appends an element whose payload is a string under this key.
    #[inline(always)]
    fn add_text(&mut self, room: &mut [u8], kind: ElementType, key: &[u8], text: &[u8])
        ensures { Adds (record { kind = kind; key = key.now; payload = string_payload text.now })
            self.old self.new room.old room.new }
    {
        let size = text.len().saturating_add(key.len()).saturating_add(7);
        if let Some(at) = self.claim(room.len(), size) {
            put_head(room, at, kind.to_tag(), key);
            put_string(room, at + key.len() + 2, text);
        }
    }

    /// Appends an element of these parts under this key.
    fn add_parts(&mut self, room: &mut [u8], key: &[u8], parts: Parts<'_>)
        requires { AreParts parts.layout parts.one.now parts.two.now }
        ensures { Adds (frame_of_parts key.now parts.entry) self.old self.new room.old room.new }
    {
        let size = parts.len().saturating_add(key.len()).saturating_add(2);
        if let Some(at) = self.claim(room.len(), size) {
            put_head(room, at, parts.kind.to_tag(), key);
            parts.put_payload(room, at + key.len() + 2);
        }
    }

    /// Where an element of `size` bytes begins, which is counted; none where it is refused, or the room is too small for it.
    #[inline(always)]
    fn claim(&mut self, room_len: usize, size: usize) -> Option<usize>
        ensures { Claims size room_len self.old self.new result }
    {
        let Some(len) = self.len_with(size) else {
            self.refuse(Status::TooLong);
            return None;
        };
        let at = self.len as usize;
        self.len = len;
        self.count += 1;
        if room_len < (len as usize) {
            self.refuse(Status::SmallBuffer);
            return None;
        }
        Some(at)
    }

    /// How many bytes are taken with `size` more; none, where the level couldn't be ended then or has the most elements.
    #[inline(always)]
    fn len_with(&self, size: usize) -> Option<u32>
        ensures fits { IfSome result (λ len. (len ≡ self.now.len + size) × ¬ IsTooLong self.now size) }
        ensures too_long { IfNone result (IsTooLong self.now size) }
    {
        if MOST <= self.count || MOST <= self.len || ((MOST - self.len) as usize) <= size {
            return None;
        }
        Some(self.len + size as u32)
    }
}
