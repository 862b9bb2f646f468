//! Where the text of a document ends. `specs/input/Texts.antt` says what one is, `Scans.antt` what is found of it byte by byte.
#![tactic(auto)]

ghost use Rattle.std.specs.Prelude.{◌≡◌, ◌-◌, ℕ, List, ◌≤◌, ◌<◌, ◌^◌, fold, length, min, MatchBool, take};
ghost use Rattle.dump_io.specs.input.Scans.{IsOpen, ScansAhead, ScansBegun, closed, in_levels, in_text, opened, scanned, start, step};
ghost use Rattle.dump_io.specs.input.Texts as says;
ghost use Rattle.dump_io.specs.declared.input.scan.Scan.TheVariants.{Whole};

/// The most bytes of the text of a document: 128 MiB.
pub const MOST_TEXT: usize = 1 << 27;

/// How far the text of a document has come.
#[derive(Clone, Copy)]
pub enum Scan {
    /// in this number of levels, outside of strings; whether another one may begin there
    Levels(usize, bool),
    /// in a string in this number of levels
    Text(usize),
    /// after a backslash there
    Escape(usize),
    /// at its end, after the end of its first level
    Whole,
    /// in no text of a document
    Torn,
}

/// How far a text has come, and after how many bytes.
#[derive(Clone, Copy)]
pub struct Scanned {
    /// how far
    pub scan: Scan,
    /// the number of bytes
    pub len: usize,
}

impl Scanned {
    /// Goes on over the bytes that follow, up to the most bytes of a text.
    pub fn on(self, ahead: &[u8]) -> Scanned
        requires { ScansAhead ahead.now self × IsOpen self.scan × (self.len ≤ length ahead.now) × (self.len < 2 ^ 27) }
        ensures scans { ScansAhead ahead.now result }
        ensures all { IsOpen result.scan → result.len ≡ min (length ahead.now) (2 ^ 27) }
    {
        let end = ahead.len().min(MOST_TEXT);
        let more = self.scan.over(&ahead[self.len..end]);
        Scanned {
            scan: more.scan,
            len: self.len + more.len,
        }
    }
}

impl Scanned {
    /// Whether the text is at its end.
    pub fn is_whole(self) -> bool
        ensures { MatchBool result (self.scan ≡ Whole) (¬ (self.scan ≡ Whole)) }
    {
        matches!(self.scan, Scan::Whole)
    }

    /// The number of bytes, without the last if the text can't go on after it.
    pub fn begun(self) -> usize
        ensures less { result ≤ self.len }
        ensures begun { (text : List ℕ) → self.scan ≡ scanned text → self.len ≡ length text → ScansBegun text result }
        ensures open { (ahead : List ℕ) → ScansAhead ahead self → IsOpen (scanned (take result ahead)) }
    {
        if self.scan.is_open() {
            self.len
        } else {
            self.len.saturating_sub(1)
        }
    }
}

impl Scan {
    /// Before the first byte of a text.
    pub fn new() -> Scan
        ensures { result ≡ start }
    {
        Scan::Levels(0, true)
    }

    /// Whether a text may go on.
    pub fn is_open(self) -> bool
        ensures { MatchBool result (IsOpen self) (¬ IsOpen self) }
    {
        match self {
            Scan::Levels(_, _) | Scan::Text(_) | Scan::Escape(_) => true,
            Scan::Whole | Scan::Torn => false,
        }
    }

    /// How far a text has come after one byte more.
    fn behind(self, byte: u8) -> Scan
        ensures { result ≡ step self byte }
    {
        match self {
            Scan::Levels(depth, may_begin) => behind_levels(depth, may_begin, byte),
            Scan::Text(depth) => behind_text(depth, byte),
            Scan::Escape(depth) => {
                if byte == b'\n' {
                    Scan::Torn
                } else {
                    Scan::Text(depth)
                }
            }
            Scan::Whole | Scan::Torn => Scan::Torn,
        }
    }

    /// Goes on over these bytes, as far as a text may.
    pub fn over(self, bytes: &[u8]) -> Scanned
        requires { IsOpen self }
        ensures within { result.len ≤ length bytes.now }
        ensures scan { result.scan ≡ fold step self (take result.len bytes.now) }
        ensures whole { IsOpen result.scan → result.len ≡ length bytes.now }
        ensures last { ¬ IsOpen result.scan → (0 < result.len) × IsOpen (fold step self (take (result.len - 1) bytes.now)) }
    {
        let mut scan = self;
        for (index, byte) in bytes.iter().enumerate() {
            scan = scan.behind(*byte);
            if !scan.is_open() {
                return Scanned {
                    scan,
                    len: index + 1,
                };
            }
        }
        Scanned {
            scan,
            len: bytes.len(),
        }
    }
}

/// How far a text has come after one byte more in a string.
fn behind_text(depth: usize, byte: u8) -> Scan
    ensures { result ≡ in_text depth byte }
{
    if byte == b'"' {
        Scan::Levels(depth, false)
    } else if byte == b'\\' {
        Scan::Escape(depth)
    } else if byte == b'\n' {
        Scan::Torn
    } else {
        Scan::Text(depth)
    }
}

/// How far a text has come after one byte more outside of strings.
fn behind_levels(depth: usize, may_begin: bool, byte: u8) -> Scan
    ensures { result ≡ in_levels depth may_begin byte }
{
    if is_space(byte) {
        Scan::Levels(depth, may_begin)
    } else if byte == b'"' {
        Scan::Text(depth)
    } else if begins_level(byte) {
        behind_begin(depth, may_begin, byte == b'[')
    } else if ends_level(byte) {
        behind_end(depth)
    } else {
        Scan::Levels(depth, byte == b':' || byte == b',')
    }
}

/// How far a text has come after the start of a level, which may begin there or not, and is an array or not.
fn behind_begin(depth: usize, may_begin: bool, is_array: bool) -> Scan
    ensures { result ≡ opened depth may_begin is_array }
{
    if may_begin && depth < MOST_TEXT {
        Scan::Levels(depth + 1, is_array)
    } else {
        Scan::Torn
    }
}

/// How far a text has come after the end of a level.
fn behind_end(depth: usize) -> Scan
    ensures { result ≡ closed depth }
{
    if depth > 1 {
        Scan::Levels(depth - 1, false)
    } else {
        Scan::Whole
    }
}

/// Whether a byte is a space, a tab or the end of a line.
pub fn is_space(byte: u8) -> bool
    ensures { result ≡ says.is_space byte }
{
    byte == b' ' || byte == b'\n' || byte == b'\r' || byte == b'\t'
}

fn begins_level(byte: u8) -> bool
    ensures { result ≡ says.begins_level byte }
{
    byte == b'{' || byte == b'['
}

fn ends_level(byte: u8) -> bool
    ensures { result ≡ says.ends_level byte }
{
    byte == b'}' || byte == b']'
}
