/// How a run ended.
#[derive(Clone, Copy)]
pub enum Status {
    /// `list`: the walk came to its end; `canon`: the canonical form was printed
    Done,
    /// the bytes have no envelope; `list`: the walk stops; `canon`: some level has a fault, or the form is too long
    Fault,
    /// the text isn't hex
    BadHex,
    /// the arguments are no command
    Usage,
    /// memory ran out
    NoMemory,
    /// reading or writing failed
    Io,
}

impl Status {
    ghost use Rattle.std.specs.Prelude.{◌≡◌};
    ghost use Rattle.bsonraw.specs.Status.{code_of};

    /// The exit status.
    pub fn code(self) -> u8
        ensures { result ≡ code_of self }
    {
        match self {
            Status::Done => 0,
            Status::Fault => 1,
            Status::BadHex => 2,
            Status::Usage => 3,
            Status::NoMemory => 4,
            Status::Io => 5,
        }
    }
}
