//! Arrivals at completers.
ghost use Rattle.std.specs.Prelude.{◌≡◌, ◌<◌, ◌≤◌, ◌+◌, None, Some, true, length};
ghost use Rattle.fj_rules.specs.Tasks.{is_completer};
ghost use Rattle.fj_rules.specs.Hooks.{hand};
ghost use Rattle.fj_rules.specs.Climbs.{arrival};
ghost use Rattle.fj_rules.specs.Allowed.{AllowedFrom};
ghost use Rattle.fj_rules.specs.Answers.{arriving, arriving_says};
ghost use Rattle.fj_rules.specs.Pasts.{limit};
ghost use Rattle.fj_rules.specs.Runs.{grown};
ghost use Rattle.fj_ledger.specs.Arriving.{as_arrival};
ghost use Rattle.fj_ledger.specs.Holds.{IsLawful};
ghost use Rattle.fj_rules.specs.Hooks.{goes_to};

use fj_ledger::Ledger;
use fj_rules::{How, Said, WorkerId};
use fj_tree::{Arrived, Handle};

/// What an arrival at a completer would do. One that was released is spent.
pub fn arrival(ledger: &Ledger, c: Handle) -> Arrived
    requires completer { is_completer ledger.now.events c.serial ≡ true }
    ensures arrival { as_arrival result ≡ arrival ledger.now.events c.serial }
    ensures lawful { IsLawful ledger.now.pool (limit ledger.now) ledger.now.events }
{
    match ledger.look(c) {
        None => Arrived::Spent,
        Some(record) => record.arrival(),
    }
}

/// Arrives at a completer. If it fires, its completion action goes into the hand of the worker. Precondition: that hand is free, the
/// history would give it the action, and the events may follow and fit.
pub fn arrive(ledger: &mut Ledger, c: Handle, w: WorkerId) -> Said
    requires worker { w < ledger.old.pool.limits.workers }
    requires completer { is_completer ledger.old.events c.serial ≡ true }
    requires free { hand ledger.old.events w ≡ None }
    requires given { goes_to ledger.old.events c.serial ≡ Some w }
    requires may { AllowedFrom ledger.old.pool ledger.old.events (arriving c.serial (arrival ledger.old.events c.serial)) }
    requires fits { length ledger.old.events + length (arriving c.serial (arrival ledger.old.events c.serial)) ≤ limit ledger.old }
    ensures said { result ≡ arriving_says c.serial (arrival ledger.old.events c.serial) }
    ensures events { ledger.new ≡ grown ledger.old (arriving c.serial (arrival ledger.old.events c.serial)) }
{
    match arrival(ledger, c) {
        Arrived::Spent => Said::Spent(c.serial),
        Arrived::Counted => {
            ledger.count_down(c);
            Said::Counted(c.serial)
        }
        Arrived::Early => Said::Early(c.serial),
        Arrived::Fire => {
            ledger.fire(c, w, How::Zero);
            Said::Hook(c.serial)
        }
    }
}

/// How many events an arrival appends.
pub fn arrival_events(arrived: Arrived) -> u64
    ensures { result ≡ length (arriving 0 (as_arrival arrived)) }
{
    match arrived {
        Arrived::Counted | Arrived::Fire => 1,
        Arrived::Spent | Arrived::Early => 0,
    }
}
