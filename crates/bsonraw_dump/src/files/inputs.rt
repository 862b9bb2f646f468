//! The files of a run, as its inputs.
#![tactic(auto)]

use crate::files::digits::Digits;
use crate::files::guess::{FRONT, hint_at};
use crate::files::tell::{tell, tell_text};
use crate::files::watch::{About, Progress, Watched};
use dump_io::input::inputs::Inputs;
use dump_io::lines::style::Style;
use std::alloc::{AllocError, Global};
use std::fs::File;
use std::io::{Read, Stdin};
use std::os::unix::fs::{FileExt, MetadataExt};
use std::{fs, io};

/// A file, or standard input.
#[derive(Drop)]
pub enum Source<'a, 'b> {
    /// a file
    File(Watched<'a, 'b, File>),
    /// standard input
    Input(Watched<'a, 'b, Stdin>),
}

impl Read for Source<'_, '_> {
    fn read(&mut self, buf: &mut [u8]) -> io::Result<usize> {
        match self {
            Source::File(file) => file.read(buf),
            Source::Input(input) => input.read(buf),
        }
    }
}

/// Inputs that aren't opened: their names aren't UTF-8, or they are packed files of a folder.
#[derive(Clone, Copy)]
pub struct Unread<'a> {
    /// what stands for the names that aren't UTF-8; no other input is named so
    pub names: &'a [String],
    /// what is reported of each of these
    pub words: &'a str,
    /// the names of packed files, in order
    pub packed: &'a [String],
    /// what is reported of all of these, once
    pub packed_words: &'a str,
}

impl<'a> Unread<'a> {
    /// What is reported of this input, if it isn't opened: of packed files only of the first.
    fn words_of(self, name: &str) -> Option<&'a str> {
        if has(self.names, name) {
            Some(self.words)
        } else if !self.is_packed(name) {
            None
        } else if self
            .packed
            .first()
            .is_some_and(|first| first.as_str() == name)
        {
            Some(self.packed_words)
        } else {
            Some("")
        }
    }

    fn is_packed(self, name: &str) -> bool {
        let found = self
            .packed
            .binary_search_by(|packed| packed.as_str().cmp(name));
        found.is_ok()
    }
}

/// Whether this is one of these names.
pub fn has(names: &[String], name: &str) -> bool {
    names.iter().any(|other| other.as_str() == name)
}

/// The files of a run.
#[derive(Drop)]
pub struct Files<'a, 'b> {
    pub rt: &'a HostRuntime,
    /// how errors of reading them are reported
    pub style: Style,
    /// how far their reading has come
    pub progress: &'b Progress<'a>,
    /// how many bytes a document has at most, if they are dumps
    pub most: Option<usize>,
    /// whether a file is read that doesn't look like what it has to be
    pub goes_on: bool,
    /// whether they are texts of hex digits in place of bytes
    pub hex: bool,
    /// the file that is written by redirection, if it is one, which isn't read
    pub written: Option<Node>,
    /// which of them can't be opened
    pub unread: Unread<'b>,
}

/// What makes two names those of one file: its device and its number there.
pub type Node = (u64, u64);

/// What makes this the name of a file, if it is one's.
pub fn node_of(rt: &HostRuntime, name: &str) -> Option<Node> {
    let about = fs::metadata(rt, name).ok()?;
    about.is_file().then_some((about.dev(), about.ino()))
}

/// How many bytes the files of these names have, if each is a file; `-` is standard input.
pub fn size_of(rt: &HostRuntime, names: &[&str]) -> Option<u64> {
    let mut size: u64 = 0;
    for name in names {
        let about = fs::metadata(rt, place_of(name)).ok()?;
        if !about.is_file() {
            return None;
        }
        size = size.saturating_add(about.len());
    }
    Some(size)
}

/// Where what has this name is.
fn place_of(name: &str) -> &str {
    if name == "-" { "/dev/stdin" } else { name }
}

/// Whether something has this name; `-` is standard input.
pub fn is_there(rt: &HostRuntime, name: &str) -> bool {
    fs::metadata(rt, place_of(name)).is_ok()
}

/// Whether these are names of one file, pipe or device.
pub fn are_one(rt: &HostRuntime, name: &str, other: &str) -> bool {
    match (fs::metadata(rt, name), fs::metadata(rt, other)) {
        (Ok(one), Ok(two)) => one.dev() == two.dev() && one.ino() == two.ino(),
        _ => false,
    }
}

/// Whether these are names of one pipe or device, which can't be read twice; `-` is standard input.
pub fn are_one_pipe(rt: &HostRuntime, name: &str, other: &str) -> bool {
    let (name, other) = (place_of(name), place_of(other));
    node_of(rt, name).is_none() && are_one(rt, name, other)
}

impl Files<'_, '_> {
    fn about(&self, name: &str) -> About {
        About {
            name: String::from_str(self.rt.alloc(), name).ok(),
            style: self.style,
            most: self.most,
            is_any: self.hex,
        }
    }

    /// Why a folder isn't read: one that has dumps is these, where dumps are read.
    fn why_no_folder(&self) -> io::Error {
        io::Error::other(match self.most {
            Some(_) => "no *.bson in it, or in a folder below it",
            None => "a folder isn't read; name the files in it",
        })
    }

    /// Why this file isn't read, if it looks like something else and isn't read then.
    fn why_not(&self, name: &str) -> Option<&'static str> {
        if self.goes_on || self.hex || node_of(self.rt, name).is_none() {
            return None;
        }
        let mut file = File::open(self.rt, name).ok()?;
        let mut room = [0; FRONT];
        let len = file.read(&mut room).ok()?;
        hint_at(self.most, &room[..len.min(FRONT)])
    }
}

impl<'a, 'b> Inputs for Files<'a, 'b> {
    type Input = Digits<Source<'a, 'b>>;

    fn open(&self, name: &str) -> io::Result<Digits<Source<'a, 'b>>> {
        Ok(Digits::new(self.rt.alloc(), self.source(name)?, self.hex))
    }

    fn again(
        &self,
        alloc: Global,
        name: &str,
        offset: u64,
        len: usize,
    ) -> Result<Option<Vec<u8>>, AllocError> {
        if self.hex || node_of(self.rt, name).is_none() {
            return Ok(None);
        }
        let Ok(file) = File::open(self.rt, name) else {
            return Ok(None);
        };
        let mut bytes = vec![in alloc; 0; len]?;
        match file.read_exact_at(&mut bytes, offset) {
            Ok(()) => Ok(Some(bytes)),
            Err(_) => Ok(None),
        }
    }

    fn tell(&self, name: &str, at: Option<u64>, error: &io::Error) {
        match self.unread.words_of(name) {
            Some("") => (),
            Some(words) => tell_text(self.rt, self.style, name, words),
            None => tell(self.rt, self.style, name, at, error),
        }
    }
}

impl<'a, 'b> Files<'a, 'b> {
    /// Opens what has this name.
    fn source(&self, name: &str) -> io::Result<Source<'a, 'b>> {
        if self.unread.words_of(name).is_some() {
            return Err(io::Error::other("not read"));
        }
        if self.written.is_some() && node_of(self.rt, place_of(name)) == self.written {
            return Err(io::Error::other("this file is the output as well"));
        }
        let about = self.about(name);
        if name == "-" {
            return Ok(Source::Input(Watched::new(self.rt, self.rt.stdin(), about, self.progress)));
        }
        let file = File::open(self.rt, name)?;
        if fs::metadata(self.rt, name).is_ok_and(|about| about.is_dir()) {
            return Err(self.why_no_folder());
        }
        if let Some(words) = self.why_not(name) {
            return Err(io::Error::other(words));
        }
        Ok(Source::File(Watched::new(self.rt, file, about, self.progress)))
    }
}
