//! The lists of a machine, one task at a time, and what it counts.
ghost use Rattle.std.specs.Prelude.{◌≡◌, ℕ, List, if◌then◌else◌, nat_lt};
ghost use Rattle.fj_rules.specs.Queues.{queue};
ghost use Rattle.fj_rules.specs.Stacks.{stack};
ghost use Rattle.fj_rules.specs.Places.{open_tasks};
ghost use Rattle.fj_rules.specs.Pasts.{gone_since};
ghost use Rattle.fj_rules.specs.Tasks.{live};
ghost use Rattle.fj_ledger.specs.Counts.{queued};
ghost use Rattle.fj_rules.specs.declared.owner.Owner.TheVariants.{Sub, Work};
ghost use Rattle.fj_c.specs.Calls.{Reads};
ghost use Rattle.fj_c.specs.Lists.{task_at, hook_in, parent_at};
ghost use Rattle.fj_codes.specs.Codings.{reply};
ghost use Rattle.fj_codes.specs.declared.codes.TheConstants.{COUNT as count};

use crate::pointer::Handle;
use fj_codes::{COUNT, HOOK, NO_MACHINE, NO_PLACE, NONE, Reply, TASK};
use fj_queues::Numbers;
use fj_rules::{Owner, Refusal, Serial, SubId, WorkerId};
use std::alloc::Global;

/// The task at a place in the queue of a submitter, the oldest at place 0.
#[unsafe(no_mangle)]
pub extern "C" fn fj_c_submitted(alloc: Global, handle: &mut Handle, s: u32, place: u64) -> Reply
    ensures { Reads (λ past. task_at (queue past.events (Sub s)) place) handle.old.past result handle.new.past }
{
    queued_at(alloc, handle, Owner::Sub(SubId(s)), place)
}

/// The task at a place in the queue of a worker, the oldest at place 0.
#[unsafe(no_mangle)]
pub extern "C" fn fj_c_forked(alloc: Global, handle: &mut Handle, w: u32, place: u64) -> Reply
    ensures { Reads (λ past. task_at (queue past.events (Work w)) place) handle.old.past result handle.new.past }
{
    queued_at(alloc, handle, Owner::Work(WorkerId(w)), place)
}

fn queued_at(alloc: Global, handle: &mut Handle, owner: Owner, place: u64) -> Reply
    ensures { Reads (λ past. task_at (queue past.events owner) place) handle.old.past result handle.new.past }
{
    let Some(machine) = handle.take(alloc) else {
        return Reply::new(NO_MACHINE, 0);
    };
    let reply = task_in(machine.queue(owner), place);
    handle.put(machine);
    reply
}

/// The task at a place of a queue.
fn task_in(queue: Numbers<'_>, place: u64) -> Reply
    ensures { result ≡ task_at queue.entry place }
{
    let mut queue = queue;
    match queue.nth(place as usize) {
        Some(t) => Reply::new(TASK, t.0),
        None => Reply::new(NO_PLACE, 0),
    }
}

/// The task at a place on the stack of a worker, the oldest at place 0. The last one is running.
#[unsafe(no_mangle)]
pub extern "C" fn fj_c_stack(alloc: Global, handle: &mut Handle, w: u32, place: u64) -> Reply
    ensures { Reads (λ past. task_at (stack past.events w) place) handle.old.past result handle.new.past }
{
    let Some(machine) = handle.take(alloc) else {
        return Reply::new(NO_MACHINE, 0);
    };
    let reply = task_at(machine.stack(WorkerId(w)), place);
    handle.put(machine);
    reply
}

/// The open task at a place, that which became open first at place 0.
#[unsafe(no_mangle)]
pub extern "C" fn fj_c_open(alloc: Global, handle: &mut Handle, place: u64) -> Reply
    ensures { Reads (λ past. task_at (open_tasks past.events) place) handle.old.past result handle.new.past }
{
    let Some(machine) = handle.take(alloc) else {
        return Reply::new(NO_MACHINE, 0);
    };
    let reply = task_at(machine.open(), place);
    handle.put(machine);
    reply
}

/// The gone task at a place, that which became gone first since the last seal at place 0.
#[unsafe(no_mangle)]
pub extern "C" fn fj_c_gone(alloc: Global, handle: &mut Handle, place: u64) -> Reply
    ensures { Reads (λ past. task_at (gone_since past) place) handle.old.past result handle.new.past }
{
    let Some(machine) = handle.take(alloc) else {
        return Reply::new(NO_MACHINE, 0);
    };
    let reply = task_at(machine.gone(), place);
    handle.put(machine);
    reply
}

/// The task at a place of a list.
#[tactic(auto, using(crate::proofs::Nth::listed_task, crate::proofs::Nth::no_task))]
fn task_at(list: &[Serial], place: u64) -> Reply
    ensures { result ≡ task_at list.now place }
{
    let place = place as usize;
    if place < list.len() {
        let t = list[place];
        Reply::new(TASK, t.0)
    } else {
        Reply::new(NO_PLACE, 0)
    }
}

/// How many tasks are kept.
#[unsafe(no_mangle)]
pub extern "C" fn fj_c_live(alloc: Global, handle: &mut Handle) -> Reply
    ensures { Reads (λ past. reply count (live past.events)) handle.old.past result handle.new.past }
{
    let Some(machine) = handle.take(alloc) else {
        return Reply::new(NO_MACHINE, 0);
    };
    let tasks = machine.live() as u64;
    handle.put(machine);
    Reply::new(COUNT, tasks)
}

/// How many tasks are in queues.
#[unsafe(no_mangle)]
pub extern "C" fn fj_c_queued(alloc: Global, handle: &mut Handle) -> Reply
    ensures { Reads (λ past. reply count (queued past.pool.limits past.events)) handle.old.past result handle.new.past }
{
    let Some(machine) = handle.take(alloc) else {
        return Reply::new(NO_MACHINE, 0);
    };
    let tasks = machine.queued() as u64;
    handle.put(machine);
    Reply::new(COUNT, tasks)
}

/// The completer whose completion action is in the hand of a worker. `NONE` if there is none, `NoSuch` if there is no such worker.
#[unsafe(no_mangle)]
pub extern "C" fn fj_c_hook(alloc: Global, handle: &mut Handle, w: u32) -> Reply
    ensures { Reads (λ past. hook_in past w) handle.old.past result handle.new.past }
{
    let Some(machine) = handle.take(alloc) else {
        return Reply::new(NO_MACHINE, 0);
    };
    let reply = if w < machine.limits().workers() {
        match machine.hook(WorkerId(w)) {
            Some(c) => Reply::new(HOOK, c.0),
            None => Reply::new(NONE, 0),
        }
    } else {
        Reply::new(Refusal::NoSuch.number(), 0)
    };
    handle.put(machine);
    reply
}

/// The parent of a kept task. `NONE` if it has none, `Unknown` if it is not kept.
#[unsafe(no_mangle)]
pub extern "C" fn fj_c_parent(alloc: Global, handle: &mut Handle, t: u64) -> Reply
    ensures { Reads (λ past. parent_at past t) handle.old.past result handle.new.past }
{
    let Some(machine) = handle.take(alloc) else {
        return Reply::new(NO_MACHINE, 0);
    };
    let t = Serial(t);
    let reply = if machine.status(t).is_none() {
        Reply::new(Refusal::Unknown.number(), 0)
    } else {
        match machine.parent(t) {
            Some(p) => Reply::new(TASK, p.0),
            None => Reply::new(NONE, 0),
        }
    };
    handle.put(machine);
    reply
}
