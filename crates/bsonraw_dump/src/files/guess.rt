//! What a file is that is no dump, as far as its first bytes tell.
#![tactic(auto)]

ghost use Rattle.std.specs.Prelude.{◌≡◌, ◌++◌, List, MatchBool, MatchOption, None, Some, drop, ℕ};
ghost use Rattle.std.specs.List.{All};
ghost use Rattle.std.specs.Option.{option_copied};
ghost use Rattle.bsonraw_dump.specs.files.Guess.{Begins, Hints, HintsAt, HintsAtText, IsArchive, IsDigitOrSpace, IsGzip, IsMarked, IsMarkedJson, IsPlain, IsTag, IsUtf16, IsZstd, LooksLike, LooksLikeNothing, MayBegin, MayFollow, OpensJson, OpensWell, front_of};

use raw_view::ElementType;

/// How many bytes are looked at.
pub const FRONT: usize = 64;

fn front(read: &[u8]) -> &[u8]
    ensures { result.now ≡ front_of read.now }
{
    &read[..FRONT.min(read.len())]
}

/// Whether a byte is the tag of an element.
fn is_tag(byte: u8) -> bool
    ensures { MatchBool result (IsTag byte) (¬ IsTag byte) }
{
    ElementType::from(byte).is_some()
}

/// Whether a byte may come after the length of a document of at most `most` bytes: a tag, or a final 0.
fn may_follow(most: usize, len: usize, byte: u8) -> bool
    ensures { MatchBool result (MayFollow most len byte) (¬ MayFollow most len byte) }
{
    match byte {
        0 => len == 5,
        tag => is_tag(tag) && 5 <= len && len <= most,
    }
}

/// Whether a document of at most `most` bytes may begin so.
fn may_be_document(most: usize, front: &[u8]) -> bool
    ensures { MatchBool result (MayBegin most front.now) (¬ MayBegin most front.now) }
{
    let Some((len, rest)) = front.split_first_chunk::<4>() else {
        return true;
    };
    match rest.first() {
        Some(byte) => may_follow(most, u32::from_le_bytes(*len) as usize, *byte),
        None => true,
    }
}

fn begins(front: &[u8], bytes: &[u8]) -> bool
    ensures { MatchBool result (Begins bytes.now front.now) (¬ Begins bytes.now front.now) }
{
    front.starts_with(bytes)
}

fn is_gzip(front: &[u8]) -> bool
    ensures { MatchBool result (IsGzip front.now) (¬ IsGzip front.now) }
{
    begins(front, b"\x1f\x8b")
}

fn is_zstd(front: &[u8]) -> bool
    ensures { MatchBool result (IsZstd front.now) (¬ IsZstd front.now) }
{
    begins(front, b"\x28\xb5\x2f\xfd")
}

/// Whether an archive of `mongodump` begins so.
fn is_archive(front: &[u8]) -> bool
    ensures { MatchBool result (IsArchive front.now) (¬ IsArchive front.now) }
{
    begins(front, b"\x6d\xe2\x99\x81")
}

fn is_utf16(front: &[u8]) -> bool
    ensures { MatchBool result (IsUtf16 front.now) (¬ IsUtf16 front.now) }
{
    begins(front, b"\xff\xfe") || begins(front, b"\xfe\xff")
}

/// Whether a byte order mark of UTF-8 is in front.
fn is_marked(front: &[u8]) -> bool
    ensures { MatchBool result (IsMarked front.now) (¬ IsMarked front.now) }
{
    begins(front, b"\xef\xbb\xbf")
}

fn is_plain(byte: u8) -> bool
    ensures { MatchBool result (IsPlain byte) (¬ IsPlain byte) }
{
    matches!(byte, b'\t' | b'\n' | b'\r' | b' '..=b'~')
}

fn is_text(front: &[u8]) -> bool
    ensures { MatchBool result (All IsPlain front.now) (¬ All IsPlain front.now) }
{
    front.iter().all(|byte| is_plain(*byte))
}

fn is_digit_or_space(byte: u8) -> bool
    ensures { MatchBool result (IsDigitOrSpace byte) (¬ IsDigitOrSpace byte) }
{
    matches!(byte, b'0'..=b'9' | b'A'..=b'F' | b'a'..=b'f' | b'\t' | b'\n' | b'\r' | b' ')
}

/// Whether all of it are digits in base 16, or white space.
fn is_hex(front: &[u8]) -> bool
    ensures { MatchBool result (All IsDigitOrSpace front.now) (¬ All IsDigitOrSpace front.now) }
{
    front.iter().all(|byte| is_digit_or_space(*byte))
}

/// Whether an object or an array of JSON begins so.
fn opens_json(front: &[u8]) -> bool
    ensures { MatchBool result (OpensJson front.now) (¬ OpensJson front.now) }
{
    matches!(front.trim_ascii_start().first(), Some(b'{' | b'['))
}

/// What is after the byte order mark.
#[tactic(auto, using(std::proofs::lemmas::List::drop_all))]
fn after_mark(front: &[u8]) -> &[u8]
    ensures { result.now ≡ drop 3 front.now }
{
    match front.split_first_chunk::<3>() {
        Some((_, after)) => after,
        None => &[],
    }
}

/// Whether a byte order mark and an object or an array of JSON begin so.
fn is_marked_json(front: &[u8]) -> bool
    ensures { MatchBool result (IsMarkedJson front.now) (¬ IsMarkedJson front.now) }
{
    let after = after_mark(front);
    is_marked(front) && is_text(after) && opens_json(after)
}

/// What a file looks like that begins so, and what helps.
fn look(front: &[u8]) -> Option<&'static str>
    ensures { MatchOption result (LooksLikeNothing front.now) (λ words. LooksLike front.now words.now) }
{
    if is_gzip(front) {
        Some("looks like gzip, not a dump: gzip -dc FILE | bsonraw-dump ..")
    } else if is_zstd(front) {
        Some("looks like zstd, not a dump: zstd -dc FILE | bsonraw-dump ..")
    } else if is_archive(front) {
        Some("looks like an archive: mongorestore --archive=FILE, then mongodump")
    } else if is_utf16(front) {
        Some("looks like text in UTF-16, not a dump")
    } else if is_marked_json(front) {
        Some("looks like JSON, not a dump: tail -c +4 FILE | bsonraw-dump bson")
    } else if is_hex(front) {
        Some("looks like hex digits, not a dump: xxd -r -p FILE | bsonraw-dump .., or bsonraw")
    } else if !is_text(front) {
        None
    } else if opens_json(front) {
        Some("looks like JSON, not a dump: bsonraw-dump bson FILE, or mongoimport, reads it")
    } else {
        Some("looks like text, not a dump; --resync looks for documents in it")
    }
}

/// What a file looks like that begins so, and what helps; `None` if it may be a dump of documents of at most `most` bytes.
fn hint(most: usize, read: &[u8]) -> Option<&'static str>
    ensures hints { Hints most read.now (option_copied result) }
    ensures none { (d r more : List ℕ) → OpensWell most d → read.now ++ more ≡ d ++ r → result ≡ None }
{
    let front = front(read);
    if may_be_document(most, front) {
        None
    } else {
        look(front)
    }
}

/// What a file looks like that begins so, and what helps; `None` if it may be text in UTF-8.
fn text_hint(read: &[u8]) -> Option<&'static str>
    ensures { HintsAtText read.now (option_copied result) }
{
    if is_gzip(read) {
        Some("looks like gzip, not text: gzip -dc FILE | bsonraw-dump bson")
    } else if is_utf16(read) {
        Some("looks like text in UTF-16: iconv -f UTF-16 -t UTF-8 FILE | bsonraw-dump bson")
    } else if is_marked(read) {
        Some("begins with a byte order mark: tail -c +4 FILE | bsonraw-dump bson")
    } else {
        None
    }
}

/// What an input looks like that begins so, if that isn't what it has to be: a dump of documents of at most `most` bytes, or text.
pub fn hint_at(most: Option<usize>, read: &[u8]) -> Option<&'static str>
    ensures hints { HintsAt most read.now (option_copied result) }
    ensures none { (m : ℕ) (d r more : List ℕ) → most ≡ Some m → OpensWell m d → read.now ++ more ≡ d ++ r → result ≡ None }
{
    match most {
        Some(most) => hint(most, read),
        None => text_hint(read),
    }
}
