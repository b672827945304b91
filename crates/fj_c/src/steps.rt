//! The steps of a machine. Each doc comment of `Step` in `fj_rules` says what its step does.
ghost use Rattle.std.specs.Prelude.{◌≡◌, None, MatchOption};
ghost use Rattle.fj_rules.specs.declared.kind.Kind.TheVariants.{Plain, Completer};
ghost use Rattle.fj_rules.specs.declared.kind.SubmittedKind.TheVariants as submitted;
ghost use Rattle.fj_rules.specs.declared.step.Step.TheVariants.{Submit, Fork, Trigger, Poll, Help, Join, End, HookDone, Add, QuietRoot, Fault, Cancel, Shutdown, Stop, IsQuiescent, State, Release};
ghost use Rattle.fj_codes.specs.Asked.{ending_in, parent_in};
ghost use Rattle.fj_c.specs.Calls.{MakesStep, Refuses};
ghost use Rattle.fj_codes.specs.declared.codes.TheConstants.{BAD_ARGUMENT as bad_argument};

use crate::pointer::Handle;
use fj_codes::{BAD_ARGUMENT, NO_MACHINE, Reply, ending_of, parent_of};
use fj_rules::{InnerTypes, Kind, Serial, Step, SubId, SubmittedKind, WorkerId};
use std::alloc::Global;

/// Makes a step.
#[inline(always)]
fn step(alloc: Global, handle: &mut Handle, asked: &Step) -> Reply
    ensures { MakesStep handle.old.past asked.now result handle.new.past }
{
    let _inside: Option<InnerTypes> = None;
    let Some(mut machine) = handle.take(alloc) else {
        return Reply::new(NO_MACHINE, 0);
    };
    let said = machine.step(asked);
    handle.put(machine);
    Reply::of(said)
}

// accept

/// A submitter submits a plain task.
#[unsafe(no_mangle)]
pub extern "C" fn fj_c_submit(alloc: Global, handle: &mut Handle, s: u32) -> Reply
    ensures { MakesStep handle.old.past (Submit s submitted.Plain) result handle.new.past }
{
    let kind = SubmittedKind::Plain;
    step(alloc, handle, &Step::Submit { s: SubId(s), kind })
}

/// A submitter submits a completer, which is the root of its tree.
#[unsafe(no_mangle)]
pub extern "C" fn fj_c_submit_completer(
    alloc: Global,
    handle: &mut Handle,
    s: u32,
    count: u32,
    relay: bool,
) -> Reply
    ensures { MakesStep handle.old.past (Submit s (submitted.Completer relay count)) result handle.new.past }
{
    let kind = SubmittedKind::Completer { relay, count };
    step(alloc, handle, &Step::Submit { s: SubId(s), kind })
}

/// The running task of a worker forks a plain task.
#[unsafe(no_mangle)]
pub extern "C" fn fj_c_fork(alloc: Global, handle: &mut Handle, w: u32) -> Reply
    ensures { MakesStep handle.old.past (Fork w Plain) result handle.new.past }
{
    let kind = Kind::Plain;
    step(
        alloc,
        handle,
        &Step::Fork {
            w: WorkerId(w),
            kind,
        },
    )
}

/// The running task of a worker forks a completer. `NO_TASK` is no parent.
#[unsafe(no_mangle)]
pub extern "C" fn fj_c_fork_completer(
    alloc: Global,
    handle: &mut Handle,
    w: u32,
    parent: u64,
    count: u32,
    relay: bool,
) -> Reply
    ensures { MakesStep handle.old.past (Fork w (Completer relay count (parent_in parent))) result handle.new.past }
{
    let kind = Kind::Completer {
        relay,
        count,
        parent: parent_of(parent),
    };
    step(
        alloc,
        handle,
        &Step::Fork {
            w: WorkerId(w),
            kind,
        },
    )
}

/// The running task of a worker makes a trigger.
#[unsafe(no_mangle)]
pub extern "C" fn fj_c_trigger(alloc: Global, handle: &mut Handle, w: u32, count: u32) -> Reply
    ensures { MakesStep handle.old.past (Trigger w count) result handle.new.past }
{
    let w = WorkerId(w);
    step(alloc, handle, &Step::Trigger { w, count })
}

// take

/// An idle worker asks for its next task.
#[unsafe(no_mangle)]
pub extern "C" fn fj_c_poll(alloc: Global, handle: &mut Handle, w: u32, r: u32) -> Reply
    ensures { MakesStep handle.old.past (Poll w r) result handle.new.past }
{
    step(alloc, handle, &Step::Poll { w: WorkerId(w), r })
}

/// A running task helps.
#[unsafe(no_mangle)]
pub extern "C" fn fj_c_help(alloc: Global, handle: &mut Handle, w: u32, r: u32) -> Reply
    ensures { MakesStep handle.old.past (Help w r) result handle.new.past }
{
    step(alloc, handle, &Step::Help { w: WorkerId(w), r })
}

/// A running task joins another one.
#[unsafe(no_mangle)]
pub extern "C" fn fj_c_join(alloc: Global, handle: &mut Handle, w: u32, t: u64, r: u32) -> Reply
    ensures { MakesStep handle.old.past (Join w t r) result handle.new.past }
{
    let (w, t) = (WorkerId(w), Serial(t));
    step(alloc, handle, &Step::Join { w, t, r })
}

// end

/// The body of a worker's running task ends. Refused as `BAD_ARGUMENT` for an unknown ending. Only the last ending has a fault.
#[unsafe(no_mangle)]
pub extern "C" fn fj_c_end(
    alloc: Global,
    handle: &mut Handle,
    w: u32,
    ending: u32,
    fault: u32,
) -> Reply
    ensures { MatchOption (ending_in ending fault) (Refuses bad_argument handle.old.past result handle.new.past) (λ how. MakesStep handle.old.past (End w how) result handle.new.past) }
{
    match ending_of(ending, fault) {
        Some(ending) => {
            let w = WorkerId(w);
            step(alloc, handle, &Step::End { w, ending })
        }
        None => Reply::new(BAD_ARGUMENT, 0),
    }
}

/// The completion action in a worker's hand ends.
#[unsafe(no_mangle)]
pub extern "C" fn fj_c_hook_done(alloc: Global, handle: &mut Handle, w: u32) -> Reply
    ensures { MakesStep handle.old.past (HookDone w) result handle.new.past }
{
    step(alloc, handle, &Step::HookDone { w: WorkerId(w) })
}

// completer

/// Raises a pending count.
#[unsafe(no_mangle)]
pub extern "C" fn fj_c_add(alloc: Global, handle: &mut Handle, w: u32, c: u64, n: u32) -> Reply
    ensures { MakesStep handle.old.past (Add w c n) result handle.new.past }
{
    let (w, c) = (WorkerId(w), Serial(c));
    step(alloc, handle, &Step::Add { w, c, n })
}

/// Makes the root of a completer normal.
#[unsafe(no_mangle)]
pub extern "C" fn fj_c_quiet_root(alloc: Global, handle: &mut Handle, w: u32, t: u64) -> Reply
    ensures { MakesStep handle.old.past (QuietRoot w t) result handle.new.past }
{
    let (w, t) = (WorkerId(w), Serial(t));
    step(alloc, handle, &Step::QuietRoot { w, t })
}

// settle

/// Gives an undone task a fault.
#[unsafe(no_mangle)]
pub extern "C" fn fj_c_fault(alloc: Global, handle: &mut Handle, t: u64, fault: u32) -> Reply
    ensures { MakesStep handle.old.past (Fault t fault) result handle.new.past }
{
    let t = Serial(t);
    step(alloc, handle, &Step::Fault { t, code: fault })
}

/// Cancels an undone task.
#[unsafe(no_mangle)]
pub extern "C" fn fj_c_cancel(alloc: Global, handle: &mut Handle, t: u64) -> Reply
    ensures { MakesStep handle.old.past (Cancel t) result handle.new.past }
{
    step(alloc, handle, &Step::Cancel { t: Serial(t) })
}

// shut

/// No more submissions are accepted.
#[unsafe(no_mangle)]
pub extern "C" fn fj_c_shutdown(alloc: Global, handle: &mut Handle) -> Reply
    ensures { MakesStep handle.old.past Shutdown result handle.new.past }
{
    step(alloc, handle, &Step::Shutdown)
}

/// Nothing more is accepted, and undone tasks are cancelled.
#[unsafe(no_mangle)]
pub extern "C" fn fj_c_stop(alloc: Global, handle: &mut Handle) -> Reply
    ensures { MakesStep handle.old.past Stop result handle.new.past }
{
    step(alloc, handle, &Step::Stop)
}

// query

/// Whether nothing is queued or held, and no completion action is in a hand.
#[unsafe(no_mangle)]
pub extern "C" fn fj_c_is_quiescent(alloc: Global, handle: &mut Handle) -> Reply
    ensures { MakesStep handle.old.past IsQuiescent result handle.new.past }
{
    step(alloc, handle, &Step::IsQuiescent)
}

/// Where a task is, and how far it has come.
#[unsafe(no_mangle)]
pub extern "C" fn fj_c_state(alloc: Global, handle: &mut Handle, t: u64) -> Reply
    ensures { MakesStep handle.old.past (State t) result handle.new.past }
{
    step(alloc, handle, &Step::State { t: Serial(t) })
}

// release

/// Forgets a task that is gone.
#[unsafe(no_mangle)]
pub extern "C" fn fj_c_release(alloc: Global, handle: &mut Handle, t: u64) -> Reply
    ensures { MakesStep handle.old.past (Release t) result handle.new.past }
{
    step(alloc, handle, &Step::Release { t: Serial(t) })
}
