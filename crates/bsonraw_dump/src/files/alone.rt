//! The file of documents that stand alone, which takes the place of another at the end, as the output does.
#![tactic(auto)]

use crate::files::output::{BLOCK, Temporary, guards, keep_mode, made_beside};
use dump_io::input::done::{Done, Lack};
use dump_io::input::status::Status;
use dump_io::lines::failure::Failure;
use dump_io::lines::style::Style;
use std::alloc::Global;
use std::fs::{File, OpenOptions};
use std::io::{BufWriter, Write};
use std::{fs, io};

/// The file of documents that stand alone.
#[derive(Drop)]
pub struct Alone {
    alloc: Global,
    data: BufWriter<File>,
    /// what it is named, and the name of the one whose place it takes; of a device or a pipe none
    names: Option<(String, String)>,
    _guards: (Option<File>, File, File),
}

impl Alone {
    /// Opens the file of this name.
    pub fn open(rt: &HostRuntime, style: Style, name: &str) -> io::Result<Alone> {
        let guards = guards(rt)?;
        let (file, names) = opened(rt, style, name)?;
        Ok(Alone {
            alloc: rt.alloc(),
            data: BufWriter::with_capacity(rt.alloc(), BLOCK, file)?,
            names,
            _guards: guards,
        })
    }

    /// Puts it in place, where it is on the disk.
    fn placed(&self, rt: &HostRuntime, beside: &str, place: &str) -> io::Result<()> {
        self.data.get_ref().sync_all()?;
        fs::rename(rt, beside, place)
    }

    /// Puts it in place, if nothing but damage went wrong in a run.
    pub fn end<'a>(&self, rt: &HostRuntime, done: Done<'a>) -> Done<'a> {
        let Some((beside, place)) = &self.names else {
            return done;
        };
        if done.lack.is_some() {
            let _removed = fs::remove_file(rt, beside.as_str());
            return done;
        }
        match self.placed(rt, beside.as_str(), place.as_str()) {
            Ok(()) => done,
            Err(error) => failed(told(self.alloc, &error)),
        }
    }
}

/// The file, and its names.
fn opened(
    rt: &HostRuntime,
    style: Style,
    name: &str,
) -> io::Result<(File, Option<(String, String)>)> {
    let old = fs::metadata(rt, name).ok();
    if old.as_ref().is_some_and(|old| !old.is_file()) {
        return Ok((OpenOptions::new().write(true).open(rt, name)?, None));
    }
    let Temporary {
        file,
        name: beside,
        place,
    } = made_beside(rt, style, name, old.as_ref())?;
    if let Some(old) = old {
        keep_mode(rt, style, name, &file, &old)?;
    }
    Ok((file, Some((beside, place))))
}

/// How a run ends that can't write the file.
pub fn failed<'a>(error: io::Error) -> Done<'a> {
    Done {
        status: Status::Output,
        lack: Some(Lack::Failed(Failure::Writing(error))),
    }
}

/// An error that says which file it is of.
fn told(alloc: Global, error: &io::Error) -> io::Error {
    let text: Result<_, _> = format!(in alloc; "--alone: {error}");
    io::Error::other(text.as_ref().map_or("--alone", |text| text.as_str()))
}

impl Write for Alone {
    fn write(&mut self, buf: &[u8]) -> io::Result<usize> {
        match self.data.write(buf) {
            Ok(len) => Ok(len),
            Err(error) => Err(told(self.alloc, &error)),
        }
    }

    fn flush(&mut self) -> io::Result<()> {
        match self.data.flush() {
            Ok(()) => Ok(()),
            Err(error) => Err(told(self.alloc, &error)),
        }
    }
}
