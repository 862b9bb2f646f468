//! The dumps in a folder, and in the folders below it.
#![tactic(auto)]

use std::alloc::{AllocError, Global};
use std::fs::Files;
use std::io::Read;
use std::{fs, io, str};

/// How many bytes of names of a folder are read at a time.
const LISTED: usize = 1 << 15;

/// What is in a folder and in those below it, by paths that begin with its name.
#[derive(Drop)]
pub(super) struct Found {
    /// the files that end in .bson, and the folders that can't be read
    pub(super) dumps: Vec<String>,
    /// the files that end in .bson.gz
    pub(super) packed: Vec<String>,
    /// what is shown of those whose names aren't UTF-8, and of what may be a folder with such a name
    pub(super) unread: Vec<String>,
    /// the folders that weren't looked into yet, each with a slash after it
    folders: Vec<String>,
}

impl Found {
    fn new(alloc: Global) -> Found {
        Found {
            dumps: Vec::new(alloc),
            packed: Vec::new(alloc),
            unread: Vec::new(alloc),
            folders: Vec::new(alloc),
        }
    }

    /// Whether there is nothing that could be read.
    pub(super) fn is_empty(&self) -> bool {
        self.dumps.is_empty() && self.packed.is_empty() && self.unread.is_empty()
    }

    /// Adds what is in this folder, whose name ends in a slash.
    fn look_into(&mut self, rt: &HostRuntime, folder: &str) -> Result<(), AllocError> {
        match listing(rt, folder)? {
            Some(names) => {
                for name in names.split(|byte| *byte == 0) {
                    self.add(rt, folder, name)?;
                }
                Ok(())
            }
            None => {
                let name = folder.strip_suffix('/').unwrap_or(folder);
                self.dumps.push(String::from_str(rt.alloc(), name)?)?;
                Ok(())
            }
        }
    }

    /// Adds what has this name in a folder.
    fn add(&mut self, rt: &HostRuntime, folder: &str, name: &[u8]) -> Result<(), AllocError> {
        match str::from_utf8(name) {
            Ok("" | "." | "..") => Ok(()),
            Ok(name) => self.add_path(rt, format!(in rt.alloc(); "{folder}{name}")?),
            // a database's name has no dot
            Err(_) if name.ends_with(b".bson") || !name.contains(&b'.') => {
                let shown = String::from_utf8_lossy(rt.alloc(), name)?;
                self.unread
                    .push(format!(in rt.alloc(); "{folder}{shown} isn't UTF-8")?)?;
                Ok(())
            }
            Err(_) => Ok(()),
        }
    }

    /// Adds what has this path. A link to a folder isn't followed.
    fn add_path(&mut self, rt: &HostRuntime, path: String) -> Result<(), AllocError> {
        if path.ends_with(".bson") {
            self.dumps.push(path)?;
        } else if path.ends_with(".bson.gz") {
            self.packed.push(path)?;
        } else if fs::symlink_metadata(rt, path.as_str()).is_ok_and(|about| about.is_dir()) {
            self.folders.push(format!(in rt.alloc(); "{path}/")?)?;
        }
        Ok(())
    }
}

/// What is in the folder of this name and in those below it, sorted by path; nothing if it is no folder, or can't be read.
pub(super) fn found_in(rt: &HostRuntime, name: &str) -> Result<Found, AllocError> {
    let mut found = Found::new(rt.alloc());
    if name == "-" || !is_folder(rt, name) {
        return Ok(found);
    }
    let slash = if name.ends_with('/') { "" } else { "/" };
    found
        .folders
        .push(format!(in rt.alloc(); "{name}{slash}")?)?;
    for _ in 0..u64::MAX {
        let Some(folder) = found.folders.pop() else {
            break;
        };
        found.look_into(rt, folder.as_str())?;
    }
    found.dumps.sort()?;
    found.packed.sort()?;
    found.unread.sort()?;
    Ok(found)
}

/// The names in a folder, each with a byte 0 after it; none if it can't be read.
pub fn listing(rt: &HostRuntime, folder: &str) -> Result<Option<Vec<u8>>, AllocError> {
    let mut names = Vec::new(rt.alloc());
    let Ok(mut dir) = rt.open_dir(folder) else {
        return Ok(None);
    };
    let mut room = Vec::new(rt.alloc());
    room.resize(LISTED, 0u8)?;
    for _ in 0..u64::MAX {
        match dir.read(&mut room) {
            Ok(0) => break,
            Ok(len) => names.extend_from_slice(&room[..len])?,
            Err(_) => return Ok(None),
        }
    }
    Ok(Some(names))
}

fn is_folder(rt: &HostRuntime, name: &str) -> bool {
    matches!(fs::metadata(rt, name), Ok(about) if about.is_dir())
}
