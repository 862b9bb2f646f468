//! What is asked of the documents of an input.
//!
//! Each command is of one of three groups, whose file has all that tells its commands apart. No other file names one.
//!
//! To add a command, as `sizes`, which is the plainest that prints a line for each document:
//!
//! 1. Code: of one that prints lines of each document `Report` in `reporting.rt`, of one that gathers something of all `Gathering` in
//!    `gathering.rt`, of one that writes documents `Making` in `making.rt`. It gets an arm in each `match` of the file: its profile, and what
//!    it prints, gathers or makes. What goes over elements has a file in `elements/`.
//! 2. Definitions: an arm in each of those of `Reporting.antt`, `Gathering.antt` or `Making.antt`, which say the same. None ends with `_`.
//! 3. Words: a function and a line of the table in `command_line/commands.rt` of `bsonraw_dump`: name, help, options, and where it prints.
//!
//! To try it without a proof, in `crates/bsonraw_dump`: `rt try --data orders.bson=../../examples/orders.bson -- sizes orders.bson`.
//! `bin/bsonraw-dump --unproved` knows a new command once `checks/words.py --write` has written `bin/words/bsonraw_dump.txt`, for which the
//! program has to be built. Then tests and pages as of a line (ARCHITECTURE), `checks/completions.py`, `checks/refusals.txt` and
//! `checks/test_memory.py`.
#![tactic(auto)]

ghost use Rattle.std.specs.Prelude.{◌≡◌, MatchBool};
ghost use Rattle.dump_commands.specs.Binary.{MakesBson, MakesNoBson};
ghost use Rattle.dump_commands.specs.Commands as says;

use crate::diff::sides::Comparing;
use crate::gathering::Gathering;
use crate::making::Making;
use crate::reporting::Report;

/// What comes of documents without damage that aren't canonical.
#[derive(Clone, Copy)]
pub enum Breaches {
    /// no more than of others
    Ignored,
    /// they are counted
    Counted,
    /// they are counted, a line names each, and it is a finding
    Found,
}

/// After which inputs a line tells what was counted.
#[derive(Clone, Copy)]
pub enum Summaries {
    /// after none
    Never,
    /// after all of them
    Last,
    /// after each, and after all of them
    Each,
}

/// What is so of a command, whatever it finds.
#[derive(Clone, Copy)]
pub struct Profile {
    /// whether it looks into documents, and doesn't go by their lengths alone
    pub looks: bool,
    /// what comes of documents that aren't canonical
    pub breaches: Breaches,
    /// after which inputs a line tells what was counted
    pub summaries: Summaries,
}

/// What is asked of the documents of an input.
#[derive(Clone, Copy)]
pub enum Command<'a> {
    /// lines of each
    Prints(Report),
    /// what is gathered of all, in lines at the end
    Gathers(Gathering<'a>),
    /// documents or texts that are made of each
    Writes(Making<'a>),
}

impl<'a> Command<'a> {
    /// What is so of it.
    pub fn profile(self) -> Profile
        ensures { says.profile_of self.entry ≡ result }
    {
        match self {
            Command::Prints(report) => report.profile(),
            Command::Gathers(gathering) => gathering.profile(),
            Command::Writes(making) => making.profile(),
        }
    }

    /// How two inputs are compared, if they are.
    pub fn comparing(self) -> Option<Comparing<'a>>
        ensures { result ≡ says.compares self.entry }
    {
        match self {
            Command::Gathers(gathering) => gathering.comparing(),
            Command::Prints(_) | Command::Writes(_) => None,
        }
    }

    /// Whether it keeps documents, and leaves out others.
    pub fn keeps(self) -> bool
        ensures { result ≡ says.keeps self.entry }
    {
        matches!(self, Command::Writes(_))
    }

    /// Whether what it writes is BSON, which is no text.
    pub fn writes_documents(self) -> bool
        ensures { MatchBool result (MakesBson self.entry) (MakesNoBson self.entry) }
    {
        match self {
            Command::Prints(_) | Command::Gathers(_) => false,
            Command::Writes(making) => making.is_bson(),
        }
    }
}
