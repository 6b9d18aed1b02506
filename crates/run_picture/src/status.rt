//! The answers of the program.

ghost use Rattle.std.specs.Prelude.{◌≡◌};

use crate::inputs::Refusal;
use std::process::ExitCode;

/// How a call of the program ended.
#[derive(Clone, Copy, Debug, PartialEq, Eq)]
pub enum Status {
    /// 0: the picture was written.
    Done,
    /// 2: the words are no command.
    Usage,
    /// 3: the source failed.
    ReadFault,
    /// 4: the sink failed.
    WriteFault,
    /// 5: there was no memory.
    NoMemory,
    /// 7: the input is no transcript, or has another text in front of it than a script.
    Refused(Refusal),
}

impl Status {
    ghost use Rattle.run_picture.specs.Codes.{code_of};

    /// The exit status.
    pub fn code(&self) -> u8
        ensures { result ≡ code_of self.now }
    {
        match self {
            Status::Done => 0,
            Status::Usage => 2,
            Status::ReadFault => 3,
            Status::WriteFault => 4,
            Status::NoMemory => 5,
            Status::Refused(_) => 7,
        }
    }
}

impl From<Status> for ExitCode {
    ghost use Rattle.std.specs.Process.{exit_status};
    ghost use Rattle.run_picture.specs.Codes.{code_of};

    ghost from_gives = { λ status exit. exit_status exit ≡ code_of status };

    fn from(status: Status) -> ExitCode {
        ExitCode::from(status.code())
    }
}
