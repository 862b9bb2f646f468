//! Lines as a page for a browser.
#![tactic(auto)]

ghost use Rattle.std.specs.Prelude.{None};

use crate::files::bytes::{About, Bytes, bytes_of, parted};
use std::alloc::{AllocError, Global};
use std::io;
use std::io::Write;

/// What is before the lines.
const HEAD: &str = "<!DOCTYPE html>
<html lang=\"en\">
<head>
<meta charset=\"utf-8\">
<meta name=\"viewport\" content=\"width=device-width, initial-scale=1\">
<title>Bytes of BSON documents</title>
<style>
:root { color-scheme: light dark; --ground: #fdfdfb; --text: #24292f; --faint: #8a919b; --tag: #8250df; --key: #0550ae; --value: #116329; --fault: #a40e26; --mark: #ffe0e0 }
@media (prefers-color-scheme: dark) { :root { --ground: #14171b; --text: #d5dae1; --faint: #6e7681; --tag: #d2a8ff; --key: #79c0ff; --value: #7ee787; --fault: #ff9492; --mark: #5a1e22 } }
body { margin: 2em; background: var(--ground); color: var(--text) }
pre { font: 14px/1.45 ui-monospace, 'Cascadia Mono', 'DejaVu Sans Mono', Menlo, Consolas, monospace; tab-size: 4 }
h1 { font: 600 1.1em system-ui, sans-serif }
b { display: inline-block; margin: 1em 0 .3em }
i { color: var(--faint); font-style: normal }
.t { color: var(--tag) }
.k { color: var(--key) }
.v { color: var(--value) }
mark { background: var(--mark); color: var(--fault) }
</style>
</head>
<body>
<pre>";

/// What is after them.
const TAIL: &str = "</pre>
</body>
</html>
";

/// A writer of whole lines, which are those of a page.
#[derive(Drop)]
pub struct Browser<W> {
    /// what takes the page
    pub writer: W,
    pub alloc: Global,
}

impl<W: Write> Browser<W> {
    /// Begins the page.
    pub fn begin(&mut self) -> io::Result<()> {
        self.writer.write_all(HEAD.as_bytes())
    }

    /// Ends the page.
    pub fn end(&mut self) -> io::Result<()> {
        self.writer.write_all(TAIL.as_bytes())?;
        self.writer.flush()
    }
}

impl<W: Write> Write for Browser<W> {
    ghost contents = { λ page. None };

    fn write(&mut self, buf: &[u8]) -> io::Result<usize> {
        let Ok(text) = marked_up(self.alloc, buf) else {
            return Err(io::Error::from(io::ErrorKind::OutOfMemory));
        };
        self.writer.write_all(&text)?;
        Ok(buf.len())
    }

    fn flush(&mut self) -> io::Result<()> {
        self.writer.flush()
    }
}

/// These lines in the language of a page.
fn marked_up(alloc: Global, lines: &[u8]) -> Result<Vec<u8>, AllocError> {
    let mut text = Vec::new(alloc);
    for line in lines.split_inclusive(|byte| *byte == b'\n') {
        match bytes_of(line) {
            Some(bytes) => push_bytes(&mut text, bytes)?,
            None => push_head(&mut text, line)?,
        }
    }
    Ok(text)
}

/// Puts a line that says which document comes.
fn push_head(text: &mut Vec<u8>, line: &[u8]) -> Result<(), AllocError> {
    let words = line.strip_suffix(b"\n").unwrap_or(line);
    push_in(text, "<b>", words, "</b>")?;
    text.extend_from_slice(b"\n")
}

/// Puts a line that shows bytes.
fn push_bytes(text: &mut Vec<u8>, line: Bytes<'_>) -> Result<(), AllocError> {
    text.extend_from_slice(b"  ")?;
    push_in(text, "<i>", line.offset, "</i>")?;
    let (before, marked, after) = parted(line.bytes);
    text.extend_from_slice(before)?;
    push_in(text, "<mark>", marked, "</mark>")?;
    text.extend_from_slice(after)?;
    let (open, close) = match line.about {
        About::Fault => ("<mark>", "</mark>"),
        About::Tag => ("<span class=t>", "</span>"),
        About::Key => ("<span class=k>", "</span>"),
        About::Value => ("<span class=v>", "</span>"),
        About::Length | About::End | About::More => ("<i>", "</i>"),
    };
    push_in(text, open, line.words, close)?;
    text.extend_from_slice(b"\n")
}

/// Puts a text between two tags, if it isn't empty.
fn push_in(text: &mut Vec<u8>, open: &str, inside: &[u8], close: &str) -> Result<(), AllocError> {
    if inside.is_empty() {
        return Ok(());
    }
    text.extend_from_slice(open.as_bytes())?;
    escape(text, inside)?;
    text.extend_from_slice(close.as_bytes())
}

/// Puts a text with what a browser reads as its language escaped.
fn escape(text: &mut Vec<u8>, inside: &[u8]) -> Result<(), AllocError> {
    for byte in inside {
        match byte {
            b'&' => text.extend_from_slice(b"&amp;")?,
            b'<' => text.extend_from_slice(b"&lt;")?,
            b'>' => text.extend_from_slice(b"&gt;")?,
            _ => text.extend_from_slice(&[*byte])?,
        }
    }
    Ok(())
}
