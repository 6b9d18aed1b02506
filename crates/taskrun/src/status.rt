//! The answers of the program.

ghost use Rattle.std.specs.Prelude.{◌≡◌};

use std::process::ExitCode;
use step_tables::ScriptFault;
use transcript::TextFault;

/// How a call of the program ended. The exit status is the number of the answer, from 0 on.
#[derive(Clone, Copy, Debug, PartialEq, Eq)]
pub enum Status {
    /// 0: all was written.
    Done,
    /// 1: the input is no script.
    ScriptRefused(ScriptFault),
    /// 2: the words are no command.
    Usage,
    /// 3: the source failed.
    ReadFault,
    /// 4: the sink failed.
    WriteFault,
    /// 5: there was no memory.
    NoMemory,
    /// 6: a transcript is not lawful from this line on.
    NotLawful(u32),
    /// 7: the input is no transcript.
    TextRefused(TextFault),
}

impl Status {
    ghost use Rattle.taskrun.specs.Answers.{code_of};

    /// The exit status, 0 to 7.
    pub fn code(&self) -> u8
        ensures { result ≡ code_of self.now }
    {
        match self {
            Status::Done => 0,
            Status::ScriptRefused(_) => 1,
            Status::Usage => 2,
            Status::ReadFault => 3,
            Status::WriteFault => 4,
            Status::NoMemory => 5,
            Status::NotLawful(_) => 6,
            Status::TextRefused(_) => 7,
        }
    }
}

impl From<Status> for ExitCode {
    ghost use Rattle.std.specs.Process.{exit_status};
    ghost use Rattle.taskrun.specs.Answers.{code_of};

    ghost from_gives = { λ status exit. exit_status exit ≡ code_of status };

    fn from(status: Status) -> ExitCode {
        ExitCode::from(status.code())
    }
}
