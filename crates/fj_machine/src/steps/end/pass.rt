//! The end of a body, followed by a climb without completion actions.
ghost use Rattle.std.specs.Prelude.{◌≡◌, ◌≤◌, ◌+◌, true, length, map};
ghost use Rattle.fj_rules.specs.declared.event.Event.TheVariants as event;
ghost use Rattle.fj_rules.specs.declared.step.Step.TheVariants.{End};
ghost use Rattle.fj_rules.specs.Tasks.{is_kept, is_completer};
ghost use Rattle.fj_rules.specs.Climbs.{passed};
ghost use Rattle.fj_rules.specs.Allowed.{AllowedFrom};
ghost use Rattle.fj_rules.specs.Pasts.{limit};
ghost use Rattle.fj_rules.specs.Runs.{grown};
ghost use Rattle.fj_machine.specs.Outcomes.{Makes, MayEnd};
ghost use Rattle.fj_machine.specs.Climbing.{climb_end, climb_says};

use crate::steps::refuse::room_for;
use fj_ledger::Ledger;
use fj_rules::{Ending, Refusal, Said, Status, WorkerId};
use fj_tree::{Handle, PassHow};

/// The end of a completer's body, and a climb that passes each completer that would fire, up to the first that would not:
/// `CountedCompleter.propagateCompletion`.
pub fn end_pass(ledger: &mut Ledger, t: Handle, w: WorkerId) -> Result<Said, Refusal>
    requires { MayEnd ledger.old w Ending.Pass t.serial }
    ensures { Makes ledger.old (End w Ending.Pass) result ledger.new }
{
    let climb = ledger.pass_look(t, w);
    room_for(ledger, 1 + climb.passed + climb_events(climb.how))?;
    ledger.end_body(t, w);
    pass_all(ledger, t, climb.passed);
    Ok(end_climb(ledger, climb.at, climb.how))
}

/// The end of a climb: a count falls, or the root that was passed becomes normal, or nothing changes.
fn end_climb(ledger: &mut Ledger, c: Handle, how: PassHow) -> Said
    requires kept { is_kept ledger.old.events c.serial ≡ true }
    requires completer { is_completer ledger.old.events c.serial ≡ true }
    requires may { AllowedFrom ledger.old.pool ledger.old.events (climb_end how c.serial) }
    requires fits { length ledger.old.events + length (climb_end how c.serial) ≤ limit ledger.old }
    ensures said { result ≡ climb_says how c.serial }
    ensures events { ledger.new ≡ grown ledger.old (climb_end how c.serial) }
{
    match how {
        PassHow::Counted => {
            ledger.count_down(c);
            Said::Counted(c.serial)
        }
        PassHow::Spent => Said::Spent(c.serial),
        PassHow::Early => Said::Early(c.serial),
        PassHow::Root => {
            ledger.settle(c, Status::Normal);
            Said::Root(c.serial)
        }
    }
}

/// Passes so many completers, the task first.
fn pass_all(ledger: &mut Ledger, t: Handle, count: u64)
    requires kept { is_kept ledger.old.events t.serial ≡ true }
    requires completer { is_completer ledger.old.events t.serial ≡ true }
    requires count { count ≡ length (passed ledger.old.events t.serial) }
    requires may { AllowedFrom ledger.old.pool ledger.old.events (map event.Pass (passed ledger.old.events t.serial)) }
    requires fits { length ledger.old.events + count ≤ limit ledger.old }
    ensures { ledger.new ≡ grown ledger.old (map event.Pass (passed ledger.old.events t.serial)) }
{
    let mut at = Some(t);
    for _ in 0..count {
        let c = at.unwrap();
        at = ledger.parent(c);
        ledger.pass(c);
    }
}

/// How many events the end of a climb appends.
fn climb_events(how: PassHow) -> u64
    ensures { result ≡ length (climb_end how 0) }
{
    match how {
        PassHow::Counted | PassHow::Root => 1,
        PassHow::Spent | PassHow::Early => 0,
    }
}
