//! How a run ended.

ghost use Rattle.std.specs.Prelude.{◌≡◌};
ghost use Rattle.script_replay.specs.Statuses.{number_of};

use std::fmt;

/// How a run ended.
#[derive(Clone, Copy, Debug, PartialEq, Eq)]
pub enum Status {
    /// All output was written, and the input was read to its end.
    Done,
    /// The words are none of the program's commands.
    Usage,
    /// The input is no script; nothing is written.
    ScriptFault {
        /// The number of the first line that is no line of a script, from 1.
        line: u64,
    },
    /// A read failed.
    ReadFault,
    /// A write failed; a front of the output is written.
    WriteFault,
    /// There was no memory; a front of the output is written.
    Memory,
    /// The input has more bytes than a script may have.
    TooLong,
}

impl Status {
    /// The number that the program ends with.
    pub fn number(self) -> u8
        ensures { result ≡ number_of self }
    {
        match self {
            Status::Done => 0,
            Status::Usage => 1,
            Status::ScriptFault { .. } => 2,
            Status::ReadFault => 3,
            Status::WriteFault => 4,
            Status::Memory => 5,
            Status::TooLong => 6,
        }
    }
}

/// What the program says of it.
impl fmt::Display for Status {
    fn fmt<W: fmt::Write>(&self, f: &mut fmt::Formatter<W>) -> fmt::Result {
        match self {
            Status::Done => write!(f, "done"),
            Status::Usage => write!(f, "usage"),
            Status::ScriptFault { line } => write!(f, "script fault at line {line}"),
            Status::ReadFault => write!(f, "read fault"),
            Status::WriteFault => write!(f, "write fault"),
            Status::Memory => write!(f, "no memory"),
            Status::TooLong => write!(f, "input too long"),
        }
    }
}
