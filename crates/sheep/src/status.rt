ghost use Rattle.std.specs.Prelude.{◌≡◌};
ghost use Rattle.sheep.specs.Status.{status_number};

/// How a call of the program ended. Each has its number as an exit status.
#[derive(Clone, Copy, Debug, PartialEq, Eq)]
pub enum Status {
    /// The whole text was written.
    Done,
    /// The words aren't accepted. Nothing was read.
    BadWords,
    /// The input isn't a script.
    BadScript,
    /// The source failed. Nothing was written.
    ReadFault,
    /// The sink failed. It was given a part of what was to be written.
    WriteFault,
    /// No memory could be had. Nothing was written.
    NoMemory,
    /// The trace isn't a whole run of its script.
    BadTrace,
    /// The input has more than 16,777,216 bytes.
    TooLong,
}

impl Status {
    pub fn number(self) -> u8
        ensures { result ≡ status_number self }
    {
        match self {
            Status::Done => 0,
            Status::BadWords => 2,
            Status::BadScript => 3,
            Status::ReadFault => 4,
            Status::WriteFault => 5,
            Status::NoMemory => 6,
            Status::BadTrace => 7,
            Status::TooLong => 9,
        }
    }
}
