//! What the inputs of a run hold, and what is asked of them.
#![tactic(auto)]

ghost use Rattle.std.specs.Prelude.{◌≡◌, MatchBool, MatchOption};
ghost use Rattle.dump_runs.specs.Asked as says;
ghost use Rattle.dump_runs.specs.Asked.{WritesBson, WritesNoBson};
ghost use Rattle.dump_commands.specs.declared.job.Job.{Job};
ghost use Rattle.dump_runs.specs.declared.reading.Reading.TheVariants.{Dumps, Texts};
ghost use Rattle.dump_runs.specs.declared.reading.TextJob.{TextJob};

use crate::style::left_of;
use dump_commands::command::Command;
use dump_commands::counts::Counts;
use dump_commands::job::Job;
use dump_io::lines::style::Style;
use raw_tree::Limits;

/// What is asked of inputs of texts.
#[derive(Clone, Copy)]
pub struct TextJob {
    /// how what is found is printed
    pub style: Style,
    /// whether reading goes on after a fault
    pub keep_going: bool,
    /// what a document may cost
    pub limits: Limits,
    /// how many faults are told at most
    pub limit: Option<u64>,
}

/// What the inputs of a run hold, and what is asked of them.
#[derive(Clone, Copy)]
pub enum Reading<'a> {
    /// dumps
    Dumps(Job<'a>),
    /// texts of Extended JSON
    Texts(TextJob),
}

impl<'a> Reading<'a> {
    /// What is asked of the next input, where this was counted before it: fewer findings are printed.
    pub fn after(self, before: Counts) -> Reading<'a>
        ensures { result ≡ says.asked_after self.entry before }
    {
        match self {
            Reading::Dumps(job) => Reading::Dumps(Job {
                limit: left_of(job.limit, before),
                ..job
            }),
            Reading::Texts(job) => Reading::Texts(TextJob {
                limit: left_of(job.limit, before),
                ..job
            }),
        }
    }

    /// How what is found is printed.
    pub fn style(self) -> Style
        ensures { result ≡ says.style_of self.entry }
    {
        match self {
            Reading::Dumps(job) => job.style,
            Reading::Texts(job) => job.style,
        }
    }

    /// The command that reads dumps.
    pub fn command(self) -> Option<Command<'a>>
        ensures { MatchOption result ((job : TextJob) × (self.entry ≡ Texts job)) (λ command. (job : Job) × (self.entry ≡ Dumps job) × (command ≡ job.command)) }
    {
        match self {
            Reading::Dumps(job) => Some(job.command),
            Reading::Texts(_) => None,
        }
    }

    /// Whether BSON is written.
    pub fn writes_documents(self) -> bool
        ensures { MatchBool result (WritesBson self.entry) (WritesNoBson self.entry) }
    {
        match self {
            Reading::Dumps(job) => job.command.writes_documents(),
            Reading::Texts(_) => true,
        }
    }

    /// What is reported of an input that could be read on, and how.
    pub fn way_on(self) -> &'static str
        ensures { result.now ≡ says.way_on self.entry }
    {
        match self {
            Reading::Dumps(_) => " wasn't read to its end; --resync goes on",
            Reading::Texts(_) => " wasn't read to its end; --keep-going goes on",
        }
    }
}
