//! Bodies end, and completion actions in `hook`.
ghost use Rattle.std.specs.Prelude.{◌≡◌};
ghost use Rattle.fj_rules.specs.declared.step.Step.TheVariants.{End};
ghost use Rattle.fj_machine.specs.Outcomes.{FindsEnding, Makes, MayEnd, suits};

mod arrive;
pub mod hook;
mod pass;

use crate::steps::end::arrive::arrive;
use crate::steps::end::pass::end_pass;
use crate::steps::refuse::{room_for, running_task};
use crate::steps::settle::relay;
use fj_ledger::Ledger;
use fj_rules::{Ending, How, Refusal, Said, Status, WorkerId};
use fj_tree::Handle;

/// The body of a worker's running task ends.
#[inline(always)]
pub fn end(ledger: &mut Ledger, w: WorkerId, ending: Ending) -> Result<Said, Refusal>
    ensures { Makes ledger.old (End w ending) result ledger.new }
{
    let t = ending_task(ledger, w, ending)?;
    match ending {
        Ending::Ok => end_ok(ledger, t, w),
        Ending::Quiet => end_quiet(ledger, t, w),
        Ending::Try => end_try(ledger, t, w),
        Ending::Pass => end_pass(ledger, t, w),
        Ending::Complete => end_complete(ledger, t, w),
        Ending::Fail(code) => end_fail(ledger, t, w, code),
    }
}

/// The running task of a worker, if its body can end so.
#[inline(always)]
fn ending_task(ledger: &Ledger, w: WorkerId, ending: Ending) -> Result<Handle, Refusal>
    ensures { FindsEnding ledger.now w ending result }
{
    let t = ledger.named(running_task(ledger, w)?);
    if !suits(ending, ledger.record(t).kind.is_completer()) {
        return Err(Refusal::NotCompleter);
    }
    Ok(t)
}

/// The end of a plain task's body, which completes the task if it is undone.
#[inline(always)]
fn end_ok(ledger: &mut Ledger, t: Handle, w: WorkerId) -> Result<Said, Refusal>
    requires { MayEnd ledger.old w Ending.Ok t.serial }
    ensures { Makes ledger.old (End w Ending.Ok) result ledger.new }
{
    let undone = ledger.record(t).status.is_undone();
    room_for(ledger, if undone { 2 } else { 1 })?;
    ledger.end_body(t, w);
    if undone {
        ledger.settle(t, Status::Normal);
    }
    Ok(Said::Done)
}

/// The end of a completer's body, which completes nothing.
fn end_quiet(ledger: &mut Ledger, t: Handle, w: WorkerId) -> Result<Said, Refusal>
    requires { MayEnd ledger.old w Ending.Quiet t.serial }
    ensures { Makes ledger.old (End w Ending.Quiet) result ledger.new }
{
    room_for(ledger, 1)?;
    ledger.end_body(t, w);
    Ok(Said::Done)
}

/// The end of a completer's body, and an arrival at that completer: `CountedCompleter.tryComplete`.
fn end_try(ledger: &mut Ledger, t: Handle, w: WorkerId) -> Result<Said, Refusal>
    requires { MayEnd ledger.old w Ending.Try t.serial }
    ensures { Makes ledger.old (End w Ending.Try) result ledger.new }
{
    let spent = ledger.record(t).is_spent();
    room_for(ledger, if spent { 1 } else { 2 })?;
    ledger.end_body(t, w);
    Ok(arrive(ledger, t, w))
}

/// The end of a completer's body, after which the completer, if not spent, fires at any pending count: `CountedCompleter.complete`.
fn end_complete(ledger: &mut Ledger, t: Handle, w: WorkerId) -> Result<Said, Refusal>
    requires { MayEnd ledger.old w Ending.Complete t.serial }
    ensures { Makes ledger.old (End w Ending.Complete) result ledger.new }
{
    let spent = ledger.record(t).is_spent();
    room_for(ledger, if spent { 1 } else { 2 })?;
    ledger.end_body(t, w);
    if spent {
        return Ok(Said::Spent(t.serial));
    }
    ledger.fire(t, w, How::Complete);
    Ok(Said::Hook(t.serial))
}

/// The end of a body that failed: if the task is undone, it becomes exceptional, and so do those to which the code is relayed.
fn end_fail(ledger: &mut Ledger, t: Handle, w: WorkerId, code: u32) -> Result<Said, Refusal>
    requires { MayEnd ledger.old w (Ending.Fail code) t.serial }
    ensures { Makes ledger.old (End w (Ending.Fail code)) result ledger.new }
{
    let count = ledger.relay_look(t);
    room_for(ledger, 1 + count)?;
    ledger.end_body(t, w);
    relay(ledger, t, count, code);
    Ok(Said::Done)
}

/// Whether an ending suits a task that is a completer, or is not: `ok` is for plain tasks, `fail` for all, the others for completers.
#[inline(always)]
fn suits(ending: Ending, is_completer: bool) -> bool
    ensures { result ≡ suits ending is_completer }
{
    match ending {
        Ending::Ok => !is_completer,
        Ending::Quiet | Ending::Try | Ending::Pass | Ending::Complete => is_completer,
        Ending::Fail(_) => true,
    }
}
