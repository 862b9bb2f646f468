//! The names of what is read.
#![tactic(auto)]

use crate::command_line::folders::{Found, found_in};
use crate::command_line::words::stand_in;
use crate::files::inputs::has;
use std::alloc::{AllocError, Global};

/// The names of what is read.
#[derive(Drop)]
pub struct Names {
    /// the names, in order
    pub names: Vec<String>,
    /// those of them that stand for one that isn't UTF-8; none of the others is spelled as one of these
    pub unread: Vec<String>,
    /// those of them that end in .bson.gz and are in a folder, in order
    pub packed: Vec<String>,
}

impl Names {
    /// Whether the first is read.
    pub fn first_is_read(&self) -> bool {
        match self.names.first() {
            Some(first) => !has(&self.unread, first.as_str()) && !has(&self.packed, first.as_str()),
            None => true,
        }
    }
}

/// A name of what is read.
#[derive(Drop)]
struct Name {
    text: String,
    /// whether it is one, and doesn't stand for one that isn't UTF-8
    is_read: bool,
}

/// What a word of the command line names.
fn named(alloc: Global, word: &str) -> Result<Name, AllocError> {
    let name = stand_in(word);
    Ok(Name {
        text: String::from_str(alloc, name.unwrap_or(word))?,
        is_read: name.is_none(),
    })
}

/// The names of what these words name, in order, where a folder is the dumps in it and in the folders below it, if there are some.
pub fn expanded(rt: &HostRuntime, words: &[&str]) -> Result<Names, AllocError> {
    let alloc = rt.alloc();
    let mut names = Vec::new(alloc);
    let mut packed = Vec::new(alloc);
    for word in words {
        let mut found = found_in(rt, word)?;
        if found.is_empty() {
            names.push(named(alloc, word)?)?;
        }
        push_found(alloc, &found, &mut names)?;
        packed.append(&mut found.packed)?;
    }
    packed.sort()?;
    let mut all = told_apart(alloc, &names)?;
    all.packed = packed;
    Ok(all)
}

/// After the others, the names of what was found in a folder: its dumps, those that are packed, and those whose names aren't UTF-8.
fn push_found(alloc: Global, found: &Found, names: &mut Vec<Name>) -> Result<(), AllocError> {
    for (texts, is_read) in [
        (&found.dumps, true),
        (&found.packed, true),
        (&found.unread, false),
    ] {
        for text in texts {
            let text = String::from_str(alloc, text.as_str())?;
            names.push(Name { text, is_read })?;
        }
    }
    Ok(())
}

/// The names of what these words name, in order, a folder too.
pub fn copied(rt: &HostRuntime, words: &[&str]) -> Result<Names, AllocError> {
    let alloc = rt.alloc();
    let mut names = Vec::new(alloc);
    for word in words {
        names.push(named(alloc, word)?)?;
    }
    told_apart(alloc, &names)
}

/// The names, where one that is spelled as what stands for another begins with a step that leads nowhere else.
fn told_apart(alloc: Global, names: &[Name]) -> Result<Names, AllocError> {
    let mut all = Names {
        names: Vec::new(alloc),
        unread: Vec::new(alloc),
        packed: Vec::new(alloc),
    };
    for name in names {
        let text = name.text.as_str();
        if !name.is_read {
            all.unread.push(String::from_str(alloc, text)?)?;
        }
        let step = if !name.is_read || !stands_in(names, text) {
            ""
        } else if text.starts_with('/') {
            "/."
        } else {
            "./"
        };
        all.names.push(format!(in alloc; "{step}{text}")?)?;
    }
    Ok(all)
}

/// Whether a text stands for a name.
fn stands_in(names: &[Name], text: &str) -> bool {
    for name in names {
        if !name.is_read && name.text.as_str() == text {
            return true;
        }
    }
    false
}
