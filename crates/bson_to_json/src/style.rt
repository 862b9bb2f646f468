//! How a document is printed.
#![tactic(auto)]

/// Which format of Extended JSON v2.
#[derive(Clone, Copy, Debug, PartialEq, Eq)]
pub enum Format {
    /// numbers and times as in JSON and ISO 8601, where these can say them
    Relaxed,
    /// each number and time in an object that gives its kind
    Canonical,
}

/// How a document is laid out.
#[derive(Clone, Copy, Debug, PartialEq, Eq)]
pub enum Layout {
    /// on one line, without spaces
    OneLine,
    /// a line for each member, indented by two spaces for each level
    Indented,
}

/// How a document is printed.
/// ```
/// let style = Style { format: Format::Relaxed, layout: Layout::Indented };
/// let text = to_json(alloc, RawDocument::from_bytes(b"\x0C\0\0\0\x10a\0\x01\0\0\0\0")?, style, Limits { bytes: 1000, depth: 10 }).map_err(|_| NoMemory)?;
/// assert_eq!(rt; text.as_str(), "{\n  \"a\": 1\n}");
/// ```
#[derive(Clone, Copy, Debug, PartialEq, Eq)]
pub struct Style {
    /// which format
    pub format: Format,
    /// how it is laid out
    pub layout: Layout,
}
