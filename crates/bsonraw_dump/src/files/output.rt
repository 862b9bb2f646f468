//! Writes into a file in place of standard output: by way of a file beside it, which takes its place at the end.
#![tactic(auto)]

ghost use Rattle.std.specs.Prelude.{◌≡◌};
ghost use Rattle.bsonraw_dump.specs.files.Endings.{unwritten_status};

use crate::command_line::listing;
use crate::files::tell::{tell, tell_lack, tell_text};
use dump_io::input::done::{Done, Lack};
use dump_io::input::status::Status;
use dump_io::lines::failure::Failure;
use dump_io::lines::style::Style;
use std::alloc::AllocError;
use std::fs::{File, Metadata, OpenOptions};
use std::io::BufWriter;
use std::os::fd::AsRawFd;
use std::os::unix::fs::{MetadataExt, fchown};
use std::{fs, io, process, str};

/// How many bytes are written at a time.
pub const BLOCK: usize = 1 << 18;

/// The most bytes of a file's name.
const LONGEST: usize = 255;

/// A run that fills a file.
pub trait Fill<'a> {
    /// How errors are reported.
    fn style(&self) -> Style;

    /// What is reported of an input that could be read on, and how.
    fn way_on(&self) -> &'static str;

    /// Runs, and writes all into the file.
    fn fill(&self, rt: &HostRuntime, data: &mut BufWriter<File>) -> Done<'a>;
}

/// Does a run whose output goes into this file. What is there and isn't a file, as a device or a pipe, is written as it is.
pub fn into_file<'a, F: Fill<'a>>(rt: &HostRuntime, run: &F, name: &str) -> Status {
    let guards = match guards(rt) {
        Ok(guards) => guards,
        Err(error) => return without(rt, run.style(), "/dev/null", &error),
    };
    let result = match fs::metadata(rt, name) {
        Ok(old) if old.is_file() => replaced(rt, run, name, Some(old)),
        Ok(_) => written(rt, run, name),
        Err(_) => replaced(rt, run, name, None),
    };
    drop(guards);
    match result {
        Ok(status) => status,
        Err(error) => without(rt, run.style(), name, &error),
    }
}

fn without(rt: &HostRuntime, style: Style, name: &str, error: &io::Error) -> Status {
    tell(rt, style, name, None, error);
    Status::Output
}

/// Takes the numbers of standard streams that are closed, so that no file that is opened later gets one of them and what is
/// written to the stream doesn't go there. The streams fail as before: input isn't read, output isn't written.
pub fn guards(rt: &HostRuntime) -> io::Result<(Option<File>, File, File)> {
    let input = OpenOptions::new().write(true).open(rt, "/dev/null")?;
    let input = if input.as_raw_fd() == 0 {
        Some(input)
    } else {
        drop(input);
        None
    };
    Ok((
        input,
        File::open(rt, "/dev/null")?,
        File::open(rt, "/dev/null")?,
    ))
}

/// Writes into what is there.
fn written<'a, F: Fill<'a>>(rt: &HostRuntime, run: &F, name: &str) -> io::Result<Status> {
    let file = OpenOptions::new().write(true).open(rt, name)?;
    let mut data = BufWriter::with_capacity(rt.alloc(), BLOCK, file)?;
    Ok(run.fill(rt, &mut data).status)
}

/// A file beside another, whose place it takes at the end.
#[derive(Drop)]
pub struct Temporary {
    /// the file
    pub file: File,
    /// its name
    pub name: String,
    /// the name of the other
    pub place: String,
}

/// Makes such a file for one of this name, of which this is known if it is there.
pub fn made_beside(
    rt: &HostRuntime,
    style: Style,
    name: &str,
    old: Option<&Metadata>,
) -> io::Result<Temporary> {
    if old.is_some() {
        let _may_be_written = OpenOptions::new().write(true).open(rt, name)?;
    }
    let place = match fs::canonicalize(rt, name) {
        Ok(place) => format!(in rt.alloc(); "{}", place.display())?,
        Err(_) => String::from_str(rt.alloc(), name)?,
    };
    tell_left(rt, style, place.as_str())?;
    let beside = beside(rt, place.as_str())?;
    match File::create_new(rt, beside.as_str()) {
        Ok(file) => Ok(Temporary {
            file,
            name: beside,
            place,
        }),
        Err(error) if old.is_some() => Err(not_beside(rt, &error)),
        Err(error) => Err(error),
    }
}

/// Writes into a file beside it, which takes its place if nothing but damage went wrong.
fn replaced<'a, F: Fill<'a>>(
    rt: &HostRuntime,
    run: &F,
    name: &str,
    old: Option<Metadata>,
) -> io::Result<Status> {
    let Temporary {
        file,
        name: beside,
        place,
    } = made_beside(rt, run.style(), name, old.as_ref())?;
    let result = match filled(rt, run, name, file, old) {
        Ok(done) if done.lack.is_none() => {
            fs::rename(rt, beside.as_str(), place.as_str())?;
            return Ok(done.status);
        }
        result => result,
    };
    let _removed = fs::remove_file(rt, beside.as_str());
    let done = result?;
    if let Some(lack) = &done.lack {
        tell_lack(rt, run.style(), run.way_on(), name, lack);
    }
    Ok(status_of(&done))
}

/// How a run ends whose file isn't written. If writing failed, it is by that, even where the reader of the findings is gone.
fn status_of(done: &Done<'_>) -> Status
    ensures { result ≡ unwritten_status done.now }
{
    match done.lack {
        Some(Lack::Failed(Failure::Memory) | Lack::Cut(_)) | None => done.status,
        Some(Lack::Failed(_)) => Status::Output,
    }
}

/// Why the file that takes the place of another at the end can't be made beside it.
fn not_beside(rt: &HostRuntime, error: &io::Error) -> io::Error {
    let text: Result<_, _> = format!(in rt.alloc(); "a file beside it can't be made: {error}");
    io::Error::other(
        text.as_ref()
            .map_or("a file beside it can't be made", |text| text.as_str()),
    )
}

/// The name of the file that takes a place at the end: that of the place, cut if it is too long, with a number and `.tmp`.
fn beside(rt: &HostRuntime, place: &str) -> Result<String, AllocError> {
    let number = process::id(rt.process());
    let end = format!(in rt.alloc(); ".{number}.tmp")?;
    let begins = place.rfind('/').map_or(0, |at| at + 1);
    let most = LONGEST.saturating_sub(end.len());
    let len = place.len().min(begins.saturating_add(most));
    let front = &place[..place.floor_char_boundary(len)];
    format!(in rt.alloc(); "{front}{end}")
}

/// Tells of each file that a run of this program left beside this place, as one does that is ended from outside.
fn tell_left(rt: &HostRuntime, style: Style, place: &str) -> Result<(), AllocError> {
    let (folder, name) = place.rsplit_once('/').unwrap_or((".", place));
    let folder = format!(in rt.alloc(); "{folder}/")?;
    let names = listing(rt, folder.as_str())?.unwrap_or(Vec::new(rt.alloc()));
    for other in names.split(|byte| *byte == 0) {
        let other = str::from_utf8(other).unwrap_or("");
        if is_left(name, other) {
            let path = format!(in rt.alloc(); "{folder}{other}")?;
            tell_size(rt, style, path.as_str())?;
        }
    }
    Ok(())
}

/// Whether a run that is ended from outside leaves a file of this name beside one with that name: a number and `.tmp` are after it.
fn is_left(name: &str, other: &str) -> bool {
    let number = other
        .strip_prefix(name)
        .and_then(|end| end.strip_prefix('.'))
        .and_then(|end| end.strip_suffix(".tmp"));
    number.is_some_and(|number| !number.is_empty()
        && number.bytes().all(|byte| byte.is_ascii_digit()))
}

/// Tells of a file that was left.
fn tell_size(rt: &HostRuntime, style: Style, path: &str) -> Result<(), AllocError> {
    if let Ok(about) = fs::metadata(rt, path) {
        let len = about.len();
        let words = format!(in rt.alloc();
            "{len} bytes of another run; if that was ended, remove the file"
        )?;
        tell_text(rt, style, path, words.as_str());
    }
    Ok(())
}

/// Writes all into the file, which is on the disk at the end.
fn filled<'a, F: Fill<'a>>(
    rt: &HostRuntime,
    run: &F,
    name: &str,
    file: File,
    old: Option<Metadata>,
) -> io::Result<Done<'a>> {
    if let Some(old) = old {
        keep_mode(rt, run.style(), name, &file, &old)?;
    }
    let mut data = BufWriter::with_capacity(rt.alloc(), BLOCK, file)?;
    let done = run.fill(rt, &mut data);
    if done.lack.is_none() {
        data.get_ref().sync_all()?;
    }
    Ok(done)
}

/// Gives a file the mode, the owner and the group of the one whose place it takes, and reports if it can't.
pub fn keep_mode(
    rt: &HostRuntime,
    style: Style,
    name: &str,
    file: &File,
    old: &Metadata,
) -> io::Result<()> {
    keep_owner(rt, style, name, file, old);
    file.set_permissions(old.permissions())
}

/// Gives a file the owner and the group of the one whose place it takes, and reports if it can't.
fn keep_owner(rt: &HostRuntime, style: Style, name: &str, file: &File, old: &Metadata) {
    let kept = fchown(file, None, Some(old.gid())).and_then(|()| fchown(
        file,
        Some(old.uid()),
        None,
    ));
    if let Err(error) = kept {
        let text: Result<_, _> = format!(in rt.alloc(); "its owner or group isn't kept: {error}");
        let words = text
            .as_ref()
            .map_or("its owner or group isn't kept", |text| text.as_str());
        tell(rt, style, name, None, &io::Error::other(words));
    }
}
