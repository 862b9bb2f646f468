//! Why a document isn't canonical, and where.

ghost use Rattle.std.specs.Prelude.{Some};
ghost use Rattle.raw_tree.specs.validator.Breaches.{cause_text};

use std::fmt;

/// Why a document isn't canonical.
#[derive(Clone, Copy, Debug, PartialEq, Eq)]
pub enum Cause {
    /// Where the elements end there is neither an element nor the final 0.
    Stop,
    /// An element's payload means no value.
    Value,
    /// An earlier element of the document has the same key.
    RepeatedKey,
    /// The key isn't the decimal of the element's number in its array.
    ArrayKey,
    /// The options of a regular expression aren't in ascending order.
    Options,
}

/// The first place, depth first in byte order, at which a document isn't canonical.
/// ```
/// let breach = validate(alloc, RawDocument::from_bytes(b"\x13\0\0\0\x10a\0\x01\0\0\0\x10a\0\x02\0\0\0\0")?)?;
/// assert!(rt; matches!(breach, Some(Breach { cause: Cause::RepeatedKey, .. })));
/// ```
#[derive(Debug, PartialEq, Eq, Drop)]
pub struct Breach {
    /// for each level, from the outermost on, the number of the element, counted from 0; for a stop, the
    /// number of elements before it
    pub path: Vec<usize>,
    /// why it is a breach
    pub cause: Cause,
}

/// The cause in a word, as the programs print it.
impl fmt::Display for Cause {
    ghost output = { λ cause. Some (cause_text cause) };

    fn fmt<W: fmt::Write>(&self, f: &mut fmt::Formatter<W>) -> fmt::Result {
        f.write_str(match self {
            Cause::Stop => "stop",
            Cause::Value => "value",
            Cause::RepeatedKey => "repeated-key",
            Cause::ArrayKey => "array-key",
            Cause::Options => "options",
        })
    }
}

/// The cause, and the numbers of the path with dots between them.
impl fmt::Display for Breach {
    fn fmt<W: fmt::Write>(&self, f: &mut fmt::Formatter<W>) -> fmt::Result {
        write!(f, "{} at ", self.cause)?;
        let mut dot = "";
        for number in self.path.iter() {
            write!(f, "{dot}{number}")?;
            dot = ".";
        }
        Ok(())
    }
}
