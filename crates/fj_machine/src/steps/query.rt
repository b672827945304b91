//! Steps that change nothing.
ghost use Rattle.std.specs.Prelude.{◌≡◌, []};
ghost use Rattle.fj_rules.specs.declared.step.Step.TheVariants.{IsQuiescent, State};
ghost use Rattle.fj_rules.specs.Answers.{answer};
ghost use Rattle.fj_machine.specs.Outcomes.{said_by};

use fj_ledger::Ledger;
use fj_rules::{Refusal, Said, Serial};

/// Whether nothing is queued or held and no completion action is in a hand: `ForkJoinPool.isQuiescent`.
pub fn is_quiescent(ledger: &Ledger) -> Said
    ensures { answer ledger.now IsQuiescent ≡ (result, []) }
{
    if ledger.is_quiet() {
        Said::Yes
    } else {
        Said::No
    }
}

/// Where a task is, and how far it has come.
pub fn state(ledger: &Ledger, t: Serial) -> Result<Said, Refusal>
    ensures { answer ledger.now (State t) ≡ (said_by result, []) }
{
    match ledger.find(t) {
        None => Err(Refusal::Unknown),
        Some(record) => Ok(Said::State(record.place, record.status)),
    }
}
