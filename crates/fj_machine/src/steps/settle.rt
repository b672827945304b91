//! Tasks are cancelled, and become exceptional.
ghost use Rattle.std.specs.Prelude.{◌≡◌, ◌≤◌, ◌+◌, length, true};
ghost use Rattle.fj_rules.specs.declared.step.Step.TheVariants.{Cancel, Fault};
ghost use Rattle.fj_rules.specs.Tasks.{is_kept};
ghost use Rattle.fj_rules.specs.Climbs.{relayed};
ghost use Rattle.fj_rules.specs.Allowed.{AllowedFrom};
ghost use Rattle.fj_rules.specs.Pasts.{limit};
ghost use Rattle.fj_rules.specs.Runs.{grown};
ghost use Rattle.fj_machine.specs.Outcomes.{Makes, relaying};

use crate::steps::refuse::{known, room_for};
use fj_ledger::Ledger;
use fj_rules::{Refusal, Said, Serial, Status};
use fj_tree::Handle;

/// An undone task becomes cancelled, wherever it is: `ForkJoinTask.cancel`.
pub fn cancel(ledger: &mut Ledger, t: Serial) -> Result<Said, Refusal>
    ensures { Makes ledger.old (Cancel t) result ledger.new }
{
    let h = known(ledger, t)?;
    match ledger.record(h).status {
        Status::Normal | Status::Exceptional(_) => return Ok(Said::No),
        Status::Cancelled => return Ok(Said::Yes),
        Status::Undone => {}
    }
    room_for(ledger, 1)?;
    ledger.settle(h, Status::Cancelled);
    Ok(Said::Yes)
}

/// An undone task becomes exceptional, and so do those to which the code is relayed: `ForkJoinTask.completeExceptionally`.
pub fn fault(ledger: &mut Ledger, t: Serial, code: u32) -> Result<Said, Refusal>
    ensures { Makes ledger.old (Fault t code) result ledger.new }
{
    let h = known(ledger, t)?;
    if !ledger.record(h).status.is_undone() {
        return Ok(Said::No);
    }
    let count = ledger.relay_look(h);
    room_for(ledger, count)?;
    relay(ledger, h, count, code);
    Ok(Said::Yes)
}

/// So many tasks become exceptional: the task first, and then each parent to which the code is relayed.
pub fn relay(ledger: &mut Ledger, t: Handle, count: u64, code: u32)
    requires kept { is_kept ledger.old.events t.serial ≡ true }
    requires count { count ≡ length (relayed ledger.old.events t.serial) }
    requires may { AllowedFrom ledger.old.pool ledger.old.events (relaying ledger.old.events t.serial code) }
    requires fits { length ledger.old.events + count ≤ limit ledger.old }
    ensures { ledger.new ≡ grown ledger.old (relaying ledger.old.events t.serial code) }
{
    let mut at = Some(t);
    for _ in 0..count {
        let c = at.unwrap();
        at = ledger.parent(c);
        ledger.settle(c, Status::Exceptional(code));
    }
}
