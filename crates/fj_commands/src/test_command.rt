//! The command that compares a script's replies with the expected ones.
ghost use Rattle.std.specs.Prelude.{◌≡◌, ◌⊎◌};
ghost use Rattle.fj_streams.specs.Calls.{HasFailed};
ghost use Rattle.fj_commands.specs.Statuses.{EndsTest};

use crate::answer::{objected, told_line};
use crate::script_text::{read_script, told_of_unread};
use fj_expect::{TestFault, test};
use fj_streams::{Sink, Source};
use std::alloc::Global;

/// Tests a script, writes its first line with another reply than the one behind it, and answers the exit status.
pub fn run_test<R: Source, W: Sink, E: Sink>(
    alloc: Global,
    input: &mut R,
    out: &mut W,
    err: &mut E,
) -> u8
    ensures ends { EndsTest result (W.contents out.old) (W.contents out.new) }
    ensures failed { result ≡ 5 → HasFailed (R.calls input.old) (R.calls input.new) ⊎ HasFailed (W.calls out.old) (W.calls out.new) }
{
    let script = match read_script(alloc, input) {
        Ok(script) => script,
        Err(unread) => return told_of_unread(unread, err),
    };
    match test(alloc, &script) {
        Ok(None) => 0,
        Ok(Some(mismatch)) => objected(format!(in alloc; "{mismatch}\n"), out, err),
        Err(fault) => told_of_fault(fault, err),
    }
}

/// Writes a fault to standard error, and answers the exit status.
fn told_of_fault<E: Sink>(fault: TestFault, err: &mut E) -> u8
    ensures { (result ≡ 3) ⊎ (result ≡ 4) }
{
    match fault {
        TestFault::Line(_) | TestFault::Limits => told_line(err, "", fault, 3),
        TestFault::Memory => told_line(err, "", fault, 4),
    }
}
