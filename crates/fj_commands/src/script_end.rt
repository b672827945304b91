ghost use Rattle.std.specs.Prelude.{◌≡◌};
ghost use Rattle.std.specs.Io.KnownBytes.{Keeps};
ghost use Rattle.fj_commands.specs.Failures.{FailsToFlush};
ghost use Rattle.fj_commands.specs.Statuses.{IsEndOf, status_of};

use crate::answer::told_line;
use fj_replay::ReplayFault;
use fj_streams::{Sink, flush_whole};

/// The exit status of a fault.
fn status(fault: ReplayFault) -> u8
    ensures { result ≡ status_of fault }
{
    match fault {
        ReplayFault::Line(_) | ReplayFault::Limits => 3,
        ReplayFault::Memory => 4,
        ReplayFault::Read | ReplayFault::Write => 5,
    }
}

/// Flushes what was written of a script, and answers the exit status. A fault's text goes to `err`; a failed flush is reported instead of
/// another fault.
pub fn end_script<W: Sink, E: Sink>(ended: Result<(), ReplayFault>, out: &mut W, err: &mut E) -> u8
    ensures status { IsEndOf ended result }
    ensures bytes { Keeps (W.contents out.old) (W.contents out.new) }
    ensures failed { result ≡ 5 → FailsToFlush ended (W.calls out.old) (W.calls out.new) }
{
    let flushed = flush_whole(out).is_ok();
    let fault = match ended {
        Ok(()) if flushed => return 0,
        Err(fault) if flushed => fault,
        _ => ReplayFault::Write,
    };
    // A failure of standard error is ignored.
    told_line(err, "", fault, status(fault))
}
