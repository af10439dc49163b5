ghost use Rattle.std.specs.Prelude.{◌≡◌};
ghost use Rattle.cluster_script.specs.Causes.{number_of_cause};

use object_id::NoMemory;
use thiserror::Error;

/// What is wrong with the first bad word of a line. Where one word has several causes, the one listed first is given.
#[derive(Clone, Copy, Debug, PartialEq, Eq)]
pub enum LineCause {
    /// A word isn't one of those that may stand there, is missing or is one too many; a name or tag isn't printed like one; a
    /// setting stands behind another statement or a second time; a statement that is no setting stands before `cluster`.
    Word = 1,
    /// A number isn't digits, with its suffix if one is allowed, or isn't below 2^64.
    Number = 2,
    /// A number is outside its limits, or two numbers `D:P` are no policy.
    Range = 3,
    /// A size, offset or length isn't a multiple of 512.
    Unaligned = 4,
    /// A session was declared before, the number of a node that joins was used before, or a node's zone was set before.
    Twice = 5,
    /// A request's session wasn't declared; a node that is named isn't there or is failed, or one that comes back isn't failed.
    Unknown = 6,
    /// The line makes the requests, the bytes read, the bytes written or a phase's losses more than a script may have. It is
    /// found after all words of the line.
    TooMany = 7,
    /// The line isn't UTF-8. Nothing else of it was looked at.
    NotUtf8 = 8,
}

impl LineCause {
    /// The number by which a report names the cause.
    pub fn number(self) -> u8
        ensures { result ≡ number_of_cause self }
    {
        self as u8
    }
}

/// Why a text is no script.
#[derive(Clone, Copy, Debug, PartialEq, Eq, Error)]
pub enum ScriptFault {
    /// The first bad line, from 1.
    #[error("line {line} is bad: {cause:?}")]
    BadLine { line: u32, cause: LineCause },
    #[error("no memory")]
    NoMemory,
}

/// Why a line could not be taken.
#[derive(Clone, Copy, Debug, PartialEq, Eq)]
pub enum ReadError {
    NoMemory,
    Cause(LineCause),
}

impl From<NoMemory> for ReadError {
    ghost use Rattle.cluster_script.specs.declared.fault.ReadError.TheVariants as errors;

    ghost from_gives = { λ _ e. e ≡ errors.NoMemory };

    fn from(_error: NoMemory) -> ReadError {
        ReadError::NoMemory
    }
}

impl From<LineCause> for ReadError {
    ghost use Rattle.cluster_script.specs.declared.fault.ReadError.TheVariants as errors;

    ghost from_gives = { λ cause e. e ≡ errors.Cause cause };

    fn from(cause: LineCause) -> ReadError {
        ReadError::Cause(cause)
    }
}
