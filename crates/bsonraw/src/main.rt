//! Lists the elements of one raw BSON document, writes it in its canonical form, or says whether it is canonical and
//! where it isn't. The document is given as hex text on standard input.
#![tactic(auto)]

mod answer;
mod canon;
mod check;
mod command;
mod digits;
mod fault;
mod key;
mod list;
mod printed;
mod run;
mod status;
#[cfg(test)]
mod tests;

use run::run;
use status::Status;
use std::io::ErrorKind;
use std::process::ExitCode;
use std::{env, io};

/// Takes the command as its one argument. Any other number of arguments, or an argument that isn't UTF-8, is run as
/// the empty text, which is no command.
fn main(rt: HostRuntime) -> ExitCode {
    let command = match env::args(&rt) {
        Ok(mut args) => {
            let _program = args.next();
            match (args.next(), args.next()) {
                (Some(command), None) => Some(command),
                _ => None,
            }
        }
        Err(error) if error.kind() == ErrorKind::OutOfMemory => {
            return ExitCode::from(Status::NoMemory.code());
        }
        Err(_) => None,
    };
    let name = match &command {
        Some(command) => command.as_str(),
        None => "",
    };
    ExitCode::from(run(rt.alloc(), name, &mut rt.stdin(), &mut io::writer(&rt)))
}
