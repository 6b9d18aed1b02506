//! What is told of an answer on standard error.

ghost use Rattle.std.specs.Prelude.{◌≡◌};
ghost use Rattle.sched_base.specs.Streams.{Appends, AppendsFront, Rose};
ghost use Rattle.run_picture.specs.ErrorLines.{error_line, refusal_line};

use crate::inputs::Refusal;
use crate::status::Status;
use program_edges::{say, say_script_fault, say_text_fault};
use sched_base::Sink;

/// Writes the one line of an answer, and none for Done. It takes no memory.
#[tactic(auto, unfolding(crate::specs::ErrorLines::error_line))]
pub(crate) fn complain<E: Sink>(err: &mut E, status: &Status)
    ensures whole { ¬ Rose (E.faults err.old) (E.faults err.new) → Appends (E.held err.old) (E.held err.new) (error_line status.now) }
    ensures front { AppendsFront (E.held err.old) (E.held err.new) (error_line status.now) }
    ensures silent { status.now ≡ Status.Done → err.new ≡ err.old }
{
    match status {
        Status::Done => {}
        Status::Usage => say(err, "usage: taskpicture [--from R] [--to R] [--text]\n"),
        Status::ReadFault => say(err, "read fault\n"),
        Status::WriteFault => say(err, "write fault\n"),
        Status::NoMemory => say(err, "want of memory\n"),
        Status::Refused(refusal) => say_refusal(err, refusal),
    }
}

/// Writes the line that names a refusal.
fn say_refusal<E: Sink>(err: &mut E, refusal: &Refusal)
    ensures whole { ¬ Rose (E.faults err.old) (E.faults err.new) → Appends (E.held err.old) (E.held err.new) (refusal_line refusal.now) }
    ensures front { AppendsFront (E.held err.old) (E.held err.new) (refusal_line refusal.now) }
{
    match refusal {
        Refusal::Script(fault) => say_script_fault(err, fault.line, fault.kind),
        Refusal::Transcript(fault) => say_text_fault(err, fault.line, fault.kind),
    }
}
