//! Running tasks change completers.
ghost use Rattle.std.specs.Prelude.{◌≡◌, IfOk};
ghost use Rattle.fj_rules.specs.declared.step.Step.TheVariants.{Add, QuietRoot};
ghost use Rattle.fj_rules.specs.Pasts.{limit};
ghost use Rattle.fj_ledger.specs.Holds.{IsLawful};
ghost use Rattle.fj_machine.specs.Outcomes.{Checks, Makes};

use crate::steps::refuse::{known, room_for, running_task};
use fj_ledger::Ledger;
use fj_rules::{MAX_PENDING, Refusal, Said, Serial, Status, WorkerId};
use fj_tree::Handle;

/// Raises the pending count of a completer, spent or not: `CountedCompleter.addToPendingCount`.
pub fn add(ledger: &mut Ledger, w: WorkerId, c: Serial, n: u32) -> Result<Said, Refusal>
    ensures { Makes ledger.old (Add w c n) result ledger.new }
{
    let h = kept_completer(ledger, w, c)?;
    let count = u64::from(ledger.record(h).pending) + u64::from(n);
    if count > MAX_PENDING {
        return Err(Refusal::CountTooLarge);
    }
    room_for(ledger, 1)?;
    ledger.raise(h, n);
    Ok(Said::Count(count as u32))
}

/// Makes the root of a completer normal, if it is undone: `CountedCompleter.quietlyCompleteRoot`.
pub fn quiet_root(ledger: &mut Ledger, w: WorkerId, t: Serial) -> Result<Said, Refusal>
    ensures { Makes ledger.old (QuietRoot w t) result ledger.new }
{
    let h = kept_completer(ledger, w, t)?;
    let root = ledger.root(h);
    if !ledger.record(root).status.is_undone() {
        return Ok(Said::Spent(root.serial));
    }
    room_for(ledger, 1)?;
    ledger.settle(root, Status::Normal);
    Ok(Said::Root(root.serial))
}

/// The kept completer of a number, for which a running task asks.
fn kept_completer(ledger: &Ledger, w: WorkerId, t: Serial) -> Result<Handle, Refusal>
    ensures refusal { Checks ledger.now (QuietRoot w t) result }
    ensures number { IfOk result (λ h. h.serial ≡ t) }
    ensures lawful { IsLawful ledger.now.pool (limit ledger.now) ledger.now.events }
{
    running_task(ledger, w)?;
    let h = known(ledger, t)?;
    if !ledger.record(h).kind.is_completer() {
        return Err(Refusal::NotCompleter);
    }
    Ok(h)
}
