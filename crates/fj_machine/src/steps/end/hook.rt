//! Completion actions end.
ghost use Rattle.std.specs.Prelude.{◌≡◌, ◌<◌, ◌&&◌, IfOk, None, Some};
ghost use Rattle.fj_rules.specs.Hooks.{hand};
ghost use Rattle.fj_rules.specs.Tasks.{parent};
ghost use Rattle.fj_rules.specs.Statuses.{status, is_undone};
ghost use Rattle.fj_rules.specs.Allowed.{is_fired_by_complete};
ghost use Rattle.fj_rules.specs.Pasts.{limit};
ghost use Rattle.fj_ledger.specs.Holds.{IsLawful, TellsHook, is_complete};
ghost use Rattle.fj_rules.specs.declared.step.Step.TheVariants.{HookDone};
ghost use Rattle.fj_machine.specs.Outcomes.{Checks, Makes};

use crate::steps::end::arrive::{arrival, arrival_events, arrive};
use crate::steps::refuse::room_for;
use fj_ledger::{Hook, Ledger};
use fj_rules::{How, Refusal, Said, Status, WorkerId};
use fj_tree::Handle;

/// The completion action in a worker's hand ends, and its completer arrives at the parent.
///
/// A completer that was fired by `complete` becomes normal first, and so does a root.
pub fn hook_done(ledger: &mut Ledger, w: WorkerId) -> Result<Said, Refusal>
    ensures { Makes ledger.old (HookDone w) result ledger.new }
{
    let hook = hook_in_hand(ledger, w)?;
    let c = ledger.named(hook.completer);
    let status = hooked_status(ledger, c, &hook);
    match hook.parent {
        None => root_hook_done(ledger, c, w, status.is_undone()),
        Some(p) => {
            let p = ledger.named(p);
            inner_hook_done(ledger, c, p, w, settles_own(hook.how, status))
        }
    }
}

/// The completion action in a worker's hand.
fn hook_in_hand(ledger: &Ledger, w: WorkerId) -> Result<Hook, Refusal>
    ensures refusal { Checks ledger.now (HookDone w) result }
    ensures hand { IfOk result (λ k. hand ledger.now.events w ≡ Some k.completer) }
    ensures tells { IfOk result (TellsHook ledger.now.events) }
    ensures lawful { IsLawful ledger.now.pool (limit ledger.now) ledger.now.events }
{
    if !ledger.has_worker(w) {
        return Err(Refusal::NoSuch);
    }
    match ledger.hook(w) {
        Some(hook) => Ok(hook),
        None => Err(Refusal::NotRunning),
    }
}

/// The status of the completer of a completion action in hand, kept or released.
fn hooked_status(ledger: &Ledger, c: Handle, hook: &Hook) -> Status
    requires same { c.serial ≡ hook.now.completer }
    requires tells { TellsHook ledger.now.events hook.now }
    ensures { result ≡ status ledger.now.events hook.now.completer }
{
    match hook.released {
        Some(status) => status,
        None => ledger.record(c).status,
    }
}

/// The completion action of a root ends, which is undone or not.
fn root_hook_done(
    ledger: &mut Ledger,
    c: Handle,
    w: WorkerId,
    undone: bool,
) -> Result<Said, Refusal>
    requires worker { w < ledger.old.pool.limits.workers }
    requires hand { hand ledger.old.events w ≡ Some c.serial }
    requires root { parent ledger.old.events c.serial ≡ None }
    requires undone { is_undone (status ledger.old.events c.serial) ≡ undone }
    ensures { Makes ledger.old (HookDone w) result ledger.new }
{
    room_for(ledger, if undone { 2 } else { 1 })?;
    ledger.end_hook(c, w);
    if !undone {
        return Ok(Said::Spent(c.serial));
    }
    ledger.settle(c, Status::Normal);
    Ok(Said::Root(c.serial))
}

/// The completion action of a completer with a parent ends. The completer becomes normal if it `settles`, and arrives at the parent.
fn inner_hook_done(
    ledger: &mut Ledger,
    c: Handle,
    p: Handle,
    w: WorkerId,
    settles: bool,
) -> Result<Said, Refusal>
    requires lawful { IsLawful ledger.old.pool (limit ledger.old) ledger.old.events }
    requires worker { w < ledger.old.pool.limits.workers }
    requires hand { hand ledger.old.events w ≡ Some c.serial }
    requires parent { parent ledger.old.events c.serial ≡ Some p.serial }
    requires settles { (is_fired_by_complete ledger.old.events c.serial && is_undone (status ledger.old.events c.serial)) ≡ settles }
    ensures { Makes ledger.old (HookDone w) result ledger.new }
{
    let events = if settles { 2 } else { 1 };
    room_for(ledger, events + arrival_events(arrival(ledger, p)))?;
    ledger.end_hook(c, w);
    if settles {
        ledger.settle(c, Status::Normal);
    }
    Ok(arrive(ledger, p, w))
}

/// Whether a completer of this status becomes normal as its completion action ends, with any parent: undone, and fired by `complete`.
fn settles_own(how: How, status: Status) -> bool
    ensures { result ≡ (is_complete how && is_undone status) }
{
    matches!(how, How::Complete) && status.is_undone()
}
