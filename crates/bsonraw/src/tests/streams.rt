//! Runs with readers and writers over memory, which give and take a byte at a time, and fail.

use super::USAGE_LINE;
use crate::run::run;
use std::alloc::Global;
use std::io;
use std::io::{ErrorKind, Read, Write};
use std::process::Abort;

const GREETING: &[u8] = b"13000000 02686900 06000000 792761 6C6C00 00";

const FORM: &[u8] = b"1300000002686900060000007927616c6c0000\n";

const LISTING: &[u8] = b"02 6869 10\nend\n";

const CANONICAL: &[u8] = b"canonical\n";

/// Gives one byte a read, and fails after this many reads.
#[derive(Drop)]
struct SlowReader<'a> {
    left: &'a [u8],
    reads: usize,
}

impl Read for SlowReader<'_> {
    fn read(&mut self, buf: &mut [u8]) -> io::Result<usize> {
        if self.reads == 0 {
            return Err(io::Error::from(ErrorKind::Other));
        }
        self.reads -= 1;
        match (self.left.split_first(), buf.first_mut()) {
            (Some((byte, left)), Some(place)) => {
                *place = *byte;
                self.left = left;
                Ok(1)
            }
            _ => Ok(0),
        }
    }
}

/// Takes one byte a write, and fails after this many calls, of which a flush is one.
#[derive(Drop)]
struct SlowWriter {
    taken: Vec<u8>,
    calls: usize,
}

impl SlowWriter {
    fn count(&mut self) -> io::Result<()> {
        if self.calls == 0 {
            return Err(io::Error::from(ErrorKind::Other));
        }
        self.calls -= 1;
        Ok(())
    }
}

impl Write for SlowWriter {
    fn write(&mut self, buf: &[u8]) -> io::Result<usize> {
        self.count()?;
        match buf.first() {
            Some(byte) => match self.taken.push(*byte) {
                Ok(()) => Ok(1),
                Err(_) => Err(io::Error::from(ErrorKind::OutOfMemory)),
            },
            None => Ok(0),
        }
    }

    fn flush(&mut self) -> io::Result<()> {
        self.count()
    }
}

/// Whether a command with this many reads and writes ends with this status, takes this many bytes of the greeting, and writes this.
fn is_run(
    alloc: Global,
    command: &str,
    (reads, calls): (usize, usize),
    status: u8,
    taken: usize,
    output: &[u8],
) -> bool {
    let mut reader = SlowReader {
        left: GREETING,
        reads,
    };
    let mut writer = SlowWriter {
        taken: Vec::new(alloc),
        calls,
    };
    let is_status = run(alloc, command, &mut reader, &mut writer) == status;
    let is_right = is_status
        && reader.left.len().wrapping_add(taken) == GREETING.len()
        && writer.taken.as_slice() == output;
    drop(writer);
    is_right
}

/// More reads and writes than a run of the greeting needs.
const ANY: usize = 1000;

#[test]
fn a_run_goes_byte_by_byte(rt: HostRuntime) {
    for (command, output) in [("list", LISTING), ("canon", FORM), ("check", CANONICAL)] {
        assert!(rt;
            is_run(rt.alloc(), command, (ANY, ANY), 0, GREETING.len(), output),
            "{command}"
        );
    }
}

#[test]
fn nothing_is_written_after_a_failed_read(rt: HostRuntime) {
    for reads in 0..=GREETING.len() {
        assert!(rt;
            is_run(rt.alloc(), "list", (reads, ANY), 5, reads, b""),
            "{reads} reads"
        );
    }
}

#[test]
fn a_failed_write_or_flush_is_said(rt: HostRuntime) {
    for (calls, _) in LISTING.iter().enumerate() {
        assert!(rt;
            is_run(
                rt.alloc(),
                "list",
                (ANY, calls),
                5,
                GREETING.len(),
                &LISTING[..calls]
            ),
            "{calls} writes"
        );
    }
    assert!(rt;
        is_run(
            rt.alloc(),
            "list",
            (ANY, LISTING.len()),
            5,
            GREETING.len(),
            LISTING
        )
    );
}

#[test]
fn an_unknown_command_reads_nothing(rt: HostRuntime) {
    let usage = USAGE_LINE.as_bytes();
    for command in ["show", "lists", "LIST", "list ", ""] {
        assert!(rt;
            is_run(rt.alloc(), command, (0, ANY), 3, 0, usage),
            "{command}"
        );
    }
    assert!(rt; is_run(rt.alloc(), "show", (ANY, 3), 5, 0, b"usa"));
}
