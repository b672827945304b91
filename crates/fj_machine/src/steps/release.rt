//! Tasks are released.
ghost use Rattle.std.specs.Prelude.{◌≡◌, IfOk};
ghost use Rattle.fj_rules.specs.declared.step.Step.TheVariants.{Release};
ghost use Rattle.fj_rules.specs.Places.{is_gone};
ghost use Rattle.fj_rules.specs.Pasts.{limit};
ghost use Rattle.fj_ledger.specs.Holds.{IsLawful};
ghost use Rattle.fj_machine.specs.Outcomes.{Checks, Makes};

use crate::steps::refuse::{known, room_for};
use fj_ledger::Ledger;
use fj_rules::{Place, Refusal, Said, Serial};
use fj_tree::{Handle, Record};

/// Forgets a task that is gone and that no kept task names as its parent.
#[inline(always)]
pub fn release(ledger: &mut Ledger, t: Serial) -> Result<Said, Refusal>
    ensures { Makes ledger.old (Release t) result ledger.new }
{
    let t = releasable(ledger, t)?;
    room_for(ledger, 1)?;
    ledger.release(t);
    Ok(Said::Done)
}

/// The task of a number, if it can be released: it is kept and gone, and no kept task names it as its parent.
#[inline(always)]
fn releasable(ledger: &Ledger, t: Serial) -> Result<Handle, Refusal>
    ensures refusal { Checks ledger.now (Release t) result }
    ensures number { IfOk result (λ h. h.serial ≡ t) }
    ensures lawful { IsLawful ledger.now.pool (limit ledger.now) ledger.now.events }
{
    let h = known(ledger, t)?;
    if !is_gone(ledger.record(h)) || ledger.has_children(h) {
        return Err(Refusal::NotDone);
    }
    Ok(h)
}

/// Whether the task of a record is gone.
#[inline(always)]
fn is_gone(kept: &Record) -> bool
    ensures { result ≡ is_gone kept.now.place }
{
    matches!(kept.place, Place::Gone)
}
