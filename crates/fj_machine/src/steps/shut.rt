//! The pool is shut.
ghost use Rattle.fj_rules.specs.declared.step.Step.TheVariants.{Shutdown, Stop};
ghost use Rattle.fj_machine.specs.Outcomes.{Makes};

use crate::steps::refuse::room_for;
use fj_ledger::Ledger;
use fj_rules::{Refusal, Said};

/// Submissions are refused from now on; accepted tasks go on, and forks are still accepted: `ForkJoinPool.shutdown`.
pub fn shutdown(ledger: &mut Ledger) -> Result<Said, Refusal>
    ensures { Makes ledger.old Shutdown result ledger.new }
{
    if ledger.is_shut() {
        return Ok(Said::Done);
    }
    room_for(ledger, 1)?;
    ledger.close_pool();
    Ok(Said::Done)
}

/// Every undone task is cancelled, and submissions, forks and triggers are refused from now on: `ForkJoinPool.shutdownNow`.
pub fn stop(ledger: &mut Ledger) -> Result<Said, Refusal>
    ensures { Makes ledger.old Stop result ledger.new }
{
    if ledger.is_stopped() {
        return Ok(Said::Done);
    }
    room_for(ledger, 1)?;
    ledger.stop_pool();
    Ok(Said::Done)
}
