//! Whether a text is a history.
ghost use Rattle.std.specs.Prelude.{◌≡◌};
ghost use Rattle.fj_c.specs.Checks.{Checks, refused_by};

use fj_check::{CheckFault, check};
use fj_codes::{BAD_EVENT, BAD_LINE, COUNT, Reply};
use fj_rules::Refusal;
use fj_streams::InMemory;
use std::alloc::Global;

/// Whether a text is a history, a heading within its limits and lines that may each follow those before it. `COUNT` of its events.
///
/// Refused at the first line that may not stand there, with its number from 1 on: `BAD_LINE`, `BAD_EVENT`, or `BadLimits` for the
/// heading. `OutOfMemory` says nothing of the text.
#[unsafe(no_mangle)]
pub extern "C" fn fj_c_check(alloc: Global, text: &[u8]) -> Reply
    ensures { Checks text.now result }
{
    let mut rest = InMemory::new(text);
    match check(alloc, &mut rest) {
        Ok(events) => Reply::new(COUNT, events),
        Err(fault) => refused(&fault),
    }
}

fn refused(fault: &CheckFault) -> Reply
    ensures { result ≡ refused_by fault.now }
{
    match fault {
        CheckFault::Line(n) => Reply::new(BAD_LINE, *n),
        CheckFault::Objection(n, _) => Reply::new(BAD_EVENT, *n),
        CheckFault::Limits => Reply::new(Refusal::BadLimits.number(), 1),
        // Memory is read without a fault.
        CheckFault::Memory | CheckFault::Read => Reply::new(Refusal::OutOfMemory.number(), 0),
    }
}
