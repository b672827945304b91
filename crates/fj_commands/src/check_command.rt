//! The command that checks a history.
ghost use Rattle.std.specs.Prelude.{◌≡◌, ◌⊎◌};
ghost use Rattle.fj_streams.specs.Calls.{HasFailed};
ghost use Rattle.fj_streams.specs.Tells.{seen};
ghost use Rattle.fj_check.specs.Checks.{FailsToRead};
ghost use Rattle.fj_commands.specs.Statuses.{EndsCheck, IsEndOfCheck};

use crate::answer::{answered, objected, told_line};
use fj_check::{CheckFault, check};
use fj_streams::{Sink, Source};
use std::alloc::Global;

/// Reads a history to its end, or to the first line that may not stand there, writes which, and answers the exit status.
pub fn run_check<R: Source, W: Sink, E: Sink>(
    alloc: Global,
    input: &mut R,
    out: &mut W,
    err: &mut E,
) -> u8
    ensures ends { EndsCheck result (R.remaining input.old) (R.remaining input.new) (W.contents out.old) (W.contents out.new) }
    ensures failed { result ≡ 5 → FailsToRead (seen R.remaining R.calls input.old input.new) ⊎ HasFailed (W.calls out.old) (W.calls out.new) }
{
    match check(alloc, input) {
        Ok(events) => answered(format!(in alloc; "ok {events}\n"), out, err),
        Err(fault) => told_of_fault(alloc, fault, out, err),
    }
}

/// Writes why the input is no history, and answers the exit status: 1 for an objection, which is an answer, otherwise 3 to 5.
pub fn told_of_fault<W: Sink, E: Sink>(
    alloc: Global,
    fault: CheckFault,
    out: &mut W,
    err: &mut E,
) -> u8
    ensures ends { IsEndOfCheck fault result (W.contents out.old) (W.contents out.new) }
    ensures failed { result ≡ 5 → (fault ≡ CheckFault.Read) ⊎ HasFailed (W.calls out.old) (W.calls out.new) }
{
    match fault {
        CheckFault::Objection(_, _) => objected(format!(in alloc; "{fault}\n"), out, err),
        CheckFault::Line(_) | CheckFault::Limits => told_line(err, "", fault, 3),
        CheckFault::Memory => told_line(err, "", fault, 4),
        CheckFault::Read => told_line(err, "", fault, 5),
    }
}
