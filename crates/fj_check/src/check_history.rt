ghost use Rattle.std.specs.Prelude.{◌≡◌, IfOk, IfErr, OnOk};
ghost use Rattle.fj_streams.specs.Calls.{IsFine};
ghost use Rattle.fj_streams.specs.Tells.{seen};
ghost use Rattle.fj_check.specs.Checks.{FailsToRead, IsChecked, StopsCheck};
ghost use Rattle.fj_check.specs.Rules.{check_fault, events_in};

use crate::fault::CheckFault;
use crate::history_check::HistoryCheck;
use crate::history_stop::HistoryStop;
use fj_streams::{FilterFault, Source, filter};
use std::alloc::Global;

/// Reads a history, and tells how many events it has: exactly where each of its lines may stand where it does.
///
/// `Objection` at the first event that does not follow those before it, or seal that may not stand there, whatever comes behind. It takes
/// one pass, and for each task that was accepted it keeps a few words.
pub fn check<R: Source>(alloc: Global, r: &mut R) -> Result<u64, CheckFault>
    ensures ok { IfOk result (λ n. IsChecked n (R.remaining r.old) (R.remaining r.new)) }
    ensures err { IfErr result (StopsCheck (R.remaining r.old) (R.remaining r.new)) }
    ensures fine { OnOk result (IsFine (R.calls r.old) (R.calls r.new)) }
    ensures failed { IfErr result (λ fault. fault ≡ CheckFault.Read → FailsToRead (seen R.remaining R.calls r.old r.new)) }
{
    let mut state = HistoryCheck::Start;
    // Nothing is written to it.
    let mut nothing = Vec::new(alloc);
    let run = filter(alloc, &mut state, r, &mut nothing);
    drop(nothing);
    // Explicit drops are proved faster.
    match run {
        Ok(()) => {
            let events = events_in(&state);
            drop(state);
            Ok(events)
        }
        Err(fault) => {
            drop(state);
            Err(check_fault(fault))
        }
    }
}

/// How many events were read.
fn events_in(state: &HistoryCheck) -> u64
    ensures { result ≡ events_in state.now }
{
    match state {
        HistoryCheck::Start => 0,
        HistoryCheck::Going(_, events) => *events,
    }
}

/// The fault of a check, by that of its filter.
pub fn check_fault(fault: FilterFault<HistoryStop>) -> CheckFault
    ensures { result ≡ check_fault fault }
{
    match fault {
        FilterFault::Stop(n, HistoryStop::Objection(objection)) => {
            CheckFault::Objection(n, objection)
        }
        FilterFault::Stop(n, HistoryStop::Line) | FilterFault::Line(n) => CheckFault::Line(n),
        FilterFault::Stop(_, HistoryStop::Limits) => CheckFault::Limits,
        // A write to a vector fails only if out of memory.
        FilterFault::Memory | FilterFault::Write => CheckFault::Memory,
        FilterFault::Read => CheckFault::Read,
    }
}
