//! Commands that are put together.
#![tactic(auto)]

use clap::Arg;
use std::alloc::{AllocError, Global};

/// A command that is put together, part by part: where memory runs out for one, `finish` says so.
#[derive(Drop)]
pub(crate) struct CommandBuilder<'a> {
    command: Result<clap::Command<'a>, AllocError>,
}

impl<'a> CommandBuilder<'a> {
    pub(crate) fn new(alloc: Global, name: &'a str, about: &'a str) -> CommandBuilder<'a> {
        CommandBuilder {
            command: Ok(clap::Command::new(alloc, name).about(about)),
        }
    }

    /// The command of a program with this version, which takes a command of its own.
    pub(crate) fn of_program(
        alloc: Global,
        name: &'a str,
        version: &'a str,
        about: &'a str,
    ) -> CommandBuilder<'a> {
        let command = clap::Command::new(alloc, name)
            .version(version)
            .about(about)
            .subcommand_required(true);
        CommandBuilder {
            command: command.bin_name(name),
        }
    }

    /// The same, with this line of usage in place of that of its arguments.
    pub(crate) fn usage(self, text: &'a str) -> CommandBuilder<'a> {
        CommandBuilder {
            command: match self.command {
                Ok(command) => Ok(command.override_usage(text)),
                Err(error) => Err(error),
            },
        }
    }

    pub(crate) fn arg(self, arg: Arg<'a>) -> CommandBuilder<'a> {
        CommandBuilder {
            command: match self.command {
                Ok(command) => command.arg(arg),
                Err(error) => Err(error),
            },
        }
    }

    /// The same of an argument for which there may be no memory.
    pub(crate) fn arg_or_none(self, arg: Result<Arg<'a>, AllocError>) -> CommandBuilder<'a> {
        match arg {
            Ok(arg) => self.arg(arg),
            Err(error) => CommandBuilder {
                command: Err(error),
            },
        }
    }

    pub(crate) fn subcommand(self, inner: CommandBuilder<'a>) -> CommandBuilder<'a> {
        CommandBuilder {
            command: with_inner(self.command, inner.command),
        }
    }

    /// The command as a whole; the only error is out of memory.
    pub(crate) fn finish(self) -> Result<clap::Command<'a>, AllocError> {
        self.command
    }
}

fn with_inner<'a>(
    outer: Result<clap::Command<'a>, AllocError>,
    inner: Result<clap::Command<'a>, AllocError>,
) -> Result<clap::Command<'a>, AllocError> {
    outer?.subcommand(inner?)
}
