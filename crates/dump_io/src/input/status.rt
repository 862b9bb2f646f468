ghost use Rattle.std.specs.Prelude.{◌≡◌};
ghost use Rattle.dump_io.specs.input.Status.{code_of};

/// How a run ends, from the best on.
#[derive(Clone, Copy)]
pub enum Status {
    /// all is sound; of check: canonical
    Done,
    /// damage or breaches
    Damage,
    /// the arguments are no command
    Usage,
    /// a file can't be read, or its lengths are unsound
    Input,
    /// memory ran out
    Memory,
    /// writing failed
    Output,
}

impl Status {
    /// The exit status.
    pub fn code(self) -> u8
        ensures { result ≡ code_of self }
    {
        match self {
            Status::Done => 0,
            Status::Damage => 1,
            Status::Usage => 2,
            Status::Input => 3,
            Status::Memory => 4,
            Status::Output => 5,
        }
    }
}
