//! How many findings a document has.
#![tactic(auto)]

ghost use Rattle.std.specs.Prelude.{◌≡◌, ◌+◌, length, cond};
ghost use Rattle.dump_runs.specs.dumps.Run.{findings_in};

use dump_commands::command::{Breaches, Command};
use dump_io::lines::find::Finding;

/// How many findings a document is in which this is found, and whose form is told to repeat another or not.
pub fn findings_of(command: Command<'_>, finding: Finding, repeats: bool) -> u64
    ensures { result ≡ findings_in command.entry finding + cond repeats 1 0 }
{
    let found = match (finding, command.profile().breaches) {
        (Finding::Damaged | Finding::TooDeep, _) | (Finding::Breached, Breaches::Found) => 1,
        (Finding::Breached, Breaches::Ignored | Breaches::Counted)
        | (Finding::Canonical | Finding::Unvalidated, _) => 0,
    };
    found + u64::from(repeats)
}
