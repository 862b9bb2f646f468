ghost use Rattle.std.specs.Prelude.{◌≡◌, IfSome, IfNone};
ghost use Rattle.bsonraw.specs.Print.{IsCommand, name_of};

/// What is printed if the arguments are no command.
pub const USAGE: &str = "usage: bsonraw list|canon|check\n";

/// What the program can be asked for.
#[derive(Clone, Copy)]
pub enum Command {
    /// the elements of a document
    List,
    /// the canonical form of a document
    Canon,
    /// whether a document is canonical
    Check,
}

impl Command {
    /// The command of this name.
    pub fn from_name(name: &str) -> Option<Command>
        ensures known { IfSome result (λ c. name.now ≡ name_of c) }
        ensures unknown { IfNone result (¬ IsCommand name.now) }
    {
        match name {
            "list" => Some(Command::List),
            "canon" => Some(Command::Canon),
            "check" => Some(Command::Check),
            _ => None,
        }
    }
}
