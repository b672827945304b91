//! The command that writes a script with its replies and their reasons.
ghost use Rattle.std.specs.Prelude.{◌≡◌, ◌⊎◌};
ghost use Rattle.fj_streams.specs.Calls.{HasFailed};
ghost use Rattle.fj_commands.specs.Statuses.{EndsExplain};

use crate::answer::{told, told_line, written};
use crate::script_text::{read_script, told_of_unread};
use fj_explain::{ExplainFault, explain};
use fj_streams::{Sink, Source};
use std::alloc::Global;

/// Reads a script, writes its lines with their replies and reasons, and answers the exit status.
pub fn run_explain<R: Source, W: Sink, E: Sink>(
    alloc: Global,
    input: &mut R,
    out: &mut W,
    err: &mut E,
) -> u8
    ensures ends { EndsExplain result }
    ensures failed { result ≡ 5 → HasFailed (R.calls input.old) (R.calls input.new) ⊎ HasFailed (W.calls out.old) (W.calls out.new) }
{
    let script = match read_script(alloc, input) {
        Ok(script) => script,
        Err(unread) => return told_of_unread(unread, err),
    };
    let mut text = String::new(alloc);
    let ended = explain(alloc, &script, &mut text);
    if written(out, &text).is_err() {
        return told(err, "write failed\n", 5);
    }
    match ended {
        Ok(()) => 0,
        Err(fault) => told_of_fault(fault, err),
    }
}

/// Writes a fault to standard error, and answers the exit status.
fn told_of_fault<E: Sink>(fault: ExplainFault, err: &mut E) -> u8
    ensures { (result ≡ 3) ⊎ (result ≡ 4) }
{
    match fault {
        ExplainFault::Line(_, _) | ExplainFault::Limits(_) => told_line(err, "", fault, 3),
        // A write to a string fails only if out of memory.
        ExplainFault::Memory | ExplainFault::Write => told(err, "out of memory\n", 4),
    }
}
