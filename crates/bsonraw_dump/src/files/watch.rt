//! Shows on standard error how far the reading of all inputs has come, where that is a terminal, and says once what an input looks
//! like that isn't a dump.
#![tactic(auto)]

ghost use Rattle.std.specs.Prelude.{◌≡◌, ◌*◌, ◌/◌, ◌^◌, ◌-◌, IfOk, max, min};
ghost use Rattle.bsonraw_dump.specs.files.Watching.{IsUnread, progress_line, reader_of};

use crate::files::guess::hint_at;
use crate::files::tell::{clear_line, tell};
use dump_io::lines::quote::push_quoted;
use dump_io::lines::style::Style;
use dump_io::lines::text::push_words;
use std::alloc::{AllocError, Global};
use std::cell::Cell;
use std::io;
use std::io::{Read, Write};
use std::time::Instant;

/// It is shown after each 8 MiB.
const STEP: u64 = 1 << 23;

/// How far the reading of all inputs has come.
#[derive(Drop)]
pub struct Progress<'a> {
    rt: &'a HostRuntime,
    /// whether it is shown
    shows: bool,
    /// how many bytes the inputs have, if that is known
    size: Option<u64>,
    /// when the reading began
    begun: Option<Instant>,
    /// how many bytes were read
    count: Cell<u64>,
    /// how many are read before the next are shown
    next: Cell<u64>,
}

impl<'a> Progress<'a> {
    /// Nothing was read yet of the inputs, which have `size` bytes, if that is known.
    pub fn new(rt: &'a HostRuntime, shows: bool, size: Option<u64>) -> Progress<'a> {
        Progress {
            rt,
            shows,
            size,
            begun: Instant::now(rt).ok(),
            count: Cell::new(0),
            next: Cell::new(STEP),
        }
    }

    /// Shows how many bytes came, now that `len` more of the input of this name did; at the end of an input nothing.
    fn add(&self, name: &str, len: usize) {
        let count = self.count.get().saturating_add(len as u64);
        self.count.set(count);
        if !self.shows {
            return;
        }
        if len == 0 {
            clear_line(self.rt);
        } else if count >= self.next.get() {
            self.show(name, count);
            self.next.set(count.saturating_add(STEP));
        }
    }

    /// Shows the name and how far the reading has come, in a line that the next overwrites.
    fn show(&self, name: &str, count: u64) {
        let line = match self.words(count) {
            Ok(words) => line_of(self.rt.alloc(), name, words.as_str()),
            Err(error) => Err(error),
        };
        if let Ok(line) = line {
            let _shown = self.rt.stderr().write_all(&line);
        }
    }

    /// How much was read, how fast and, if that can be told, how long the rest takes.
    fn words(&self, count: u64) -> Result<String, AllocError> {
        let alloc = self.rt.alloc();
        let millis = match self.begun.map(|begun| begun.elapsed(self.rt)) {
            Some(Ok(elapsed)) => u64::try_from(elapsed.as_millis()).unwrap_or(u64::MAX),
            _ => 0,
        };
        let rate = per_second(count, millis);
        let megabytes = count / 1_000_000;
        match self.size {
            Some(size) if size >= count && rate > 0 => {
                let percent = u128::from(count) * 100 / u128::from(size.max(1));
                let left = (size - count) / rate;
                let (minutes, seconds) = (left / 60, left % 60);
                let speed = rate / 1_000_000;
                format!(in alloc; "{percent} %, {speed} MB/s, {minutes}:{seconds:02} left")
            }
            _ => format!(in alloc; "{megabytes} MB"),
        }
    }
}

/// What is known of an input before it is read.
#[derive(Drop)]
pub struct About {
    /// its name, if there was memory for it
    pub name: Option<String>,
    /// how it is reported what it looks like
    pub style: Style,
    /// how many bytes a document of it has at most, if it has to be a dump
    pub most: Option<usize>,
    /// whether it may look like anything
    pub is_any: bool,
}

/// A reader that shows how many bytes it gave.
#[derive(Drop)]
pub struct Watched<'a, 'b, R> {
    rt: &'a HostRuntime,
    reader: R,
    about: About,
    progress: &'b Progress<'a>,
    /// whether it was read
    is_begun: bool,
}

impl<'a, 'b, R> Watched<'a, 'b, R> {
    /// The reader of an input of which nothing was read.
    pub fn new(
        rt: &'a HostRuntime,
        reader: R,
        about: About,
        progress: &'b Progress<'a>,
    ) -> Watched<'a, 'b, R>
        ensures { IsUnread reader about result }
    {
        Watched {
            rt,
            reader,
            about,
            progress,
            is_begun: false,
        }
    }

    /// Looks at what was read, and notes that the input is begun.
    fn look(&mut self, read: &[u8])
        ensures { self.new.reader ≡ self.old.reader }
    {
        self.show(read);
        self.is_begun = true;
    }

    /// Says what the first bytes look like, if that isn't what the input has to be, and shows how many bytes came.
    fn show(&self, read: &[u8]) {
        let name = self.about.name.as_ref().map_or("", |name| name.as_str());
        let is_known = self.is_begun || self.about.is_any;
        if let (false, Some(words)) = (is_known, hint_at(self.about.most, read)) {
            tell(
                self.rt,
                self.about.style,
                name,
                None,
                &io::Error::other(words),
            );
        }
        self.progress.add(name, read.len());
    }
}

/// The line that shows how far the reading of an input has come. Its name is in quotes, so a terminal shows it, and obeys none of it.
fn line_of(alloc: Global, name: &str, words: &str) -> Result<Vec<u8>, AllocError>
    ensures { IfOk result (λ line. line.items ≡ progress_line name.now words.now) }
{
    let mut line = Vec::from_slice(alloc, b"\x1b[K")?;
    push_quoted(&mut line, name)?;
    push_words(&mut line, ": ")?;
    push_words(&mut line, words)?;
    push_words(&mut line, "\r")?;
    Ok(line)
}

/// How many bytes come in a second, where `count` came in this time.
fn per_second(count: u64, millis: u64) -> u64
    ensures { result ≡ min (count * 1000 / max millis 1) (2 ^ 64 - 1) }
{
    let rate = u128::from(count) * 1000 / u128::from(millis.max(1));
    u64::try_from(rate).unwrap_or(u64::MAX)
}

impl<R: Read> Read for Watched<'_, '_, R> {
    ghost remaining = { λ w. R.remaining (reader_of w) };

    fn read(&mut self, buf: &mut [u8]) -> io::Result<usize> {
        let len = self.reader.read(buf)?;
        self.look(&buf[..len]);
        Ok(len)
    }
}
