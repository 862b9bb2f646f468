use raw_bson::NoMemory;
use std::alloc::{AllocError, AllocFailed};

/// Why a run ends before its last line.
#[derive(Clone, Copy)]
pub enum Failure {
    /// no call has this name
    Unknown,
    /// the line isn't in the form
    Form,
    /// memory ran out
    NoMemory,
    /// reading or writing failed
    Io,
}

impl Failure {
    /// The exit status.
    pub fn code(self) -> u8 {
        match self {
            Failure::Unknown => 2,
            Failure::Form => 3,
            Failure::NoMemory => 4,
            Failure::Io => 5,
        }
    }

    /// What is said of the line.
    pub fn text(self) -> &'static str {
        match self {
            Failure::Unknown => "no call has this name",
            Failure::Form => "the line isn't in the form",
            Failure::NoMemory => "memory ran out",
            Failure::Io => "reading or writing failed",
        }
    }
}

impl From<AllocError> for Failure {
    fn from(_error: AllocError) -> Failure {
        Failure::NoMemory
    }
}

impl From<NoMemory> for Failure {
    fn from(_error: NoMemory) -> Failure {
        Failure::NoMemory
    }
}

impl<T: Drop> From<AllocFailed<T>> for Failure {
    fn from(_failed: AllocFailed<T>) -> Failure {
        Failure::NoMemory
    }
}
