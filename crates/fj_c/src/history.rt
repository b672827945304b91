//! The history of a machine, and its seals.
ghost use Rattle.std.specs.Prelude.{◌≡◌, ◌⊎◌, length, IfSome};
ghost use Rattle.fj_rules.specs.Pasts.{present};
ghost use Rattle.fj_rules.specs.Headline.{Headline};
ghost use Rattle.fj_c.specs.Calls.{IsSealed, IsUnsealed, Reads, Seals};
ghost use Rattle.fj_codes.specs.Codings.{reply};
ghost use Rattle.fj_c.specs.History.{event_at, found, written, written_at};
ghost use Rattle.fj_codes.specs.declared.codes.TheConstants.{COUNT as count};

use crate::pointer::Handle;
use fj_codes::{COUNT, DONE, Happened, NO_MACHINE, NO_PLACE, Reply};
use fj_machine::Machine;
use fj_rules::InnerTypes;
use std::alloc::Global;

/// How many events there are since the last seal.
#[unsafe(no_mangle)]
pub extern "C" fn fj_c_events(alloc: Global, handle: &mut Handle) -> Reply
    ensures reply { Reads (λ past. reply count (length (present past))) handle.old.past result handle.new.past }
    ensures headline { IfSome handle.old.past (λ past. Headline past.pool past.events) }
{
    let Some(machine) = handle.take(alloc) else {
        return Reply::new(NO_MACHINE, 0);
    };
    let events = machine.history().len() as u64;
    handle.put(machine);
    Reply::new(COUNT, events)
}

/// The event at a place, the oldest since the last seal at place 0. `NO_PLACE` if there is none there.
#[unsafe(no_mangle)]
pub extern "C" fn fj_c_event(
    alloc: Global,
    handle: &mut Handle,
    place: u64,
    out: &mut Happened,
) -> Reply
    ensures reply { Reads (λ past. found (event_at place past)) handle.old.past result handle.new.past }
    ensures event { out.new ≡ written_at place handle.old.past out.old }
{
    let Some(machine) = handle.take(alloc) else {
        return Reply::new(NO_MACHINE, 0);
    };
    let reply = copy_event(&machine, place, out);
    handle.put(machine);
    reply
}

fn copy_event(machine: &Machine, place: u64, out: &mut Happened) -> Reply
    ensures reply { result ≡ found (event_at place machine.now) }
    ensures event { out.new ≡ written (event_at place machine.now) out.old }
{
    let _inside: Option<InnerTypes> = None;
    let history = machine.history();
    let place = place as usize;
    if place < history.len() {
        *out = Happened::of(&history[place]);
        Reply::new(DONE, 0)
    } else {
        Reply::new(NO_PLACE, 0)
    }
}

/// Seals the history: the events since the last seal are freed.
#[unsafe(no_mangle)]
pub extern "C" fn fj_c_seal(alloc: Global, handle: &mut Handle) -> Reply
    ensures { Seals handle.old.past result handle.new.past }
{
    let Some(mut machine) = handle.take(alloc) else {
        return Reply::new(NO_MACHINE, 0);
    };
    let reply = seal(alloc, &mut machine);
    handle.put(machine);
    reply
}

fn seal(alloc: Global, machine: &mut Machine) -> Reply
    ensures { IsSealed machine.old result machine.new ⊎ IsUnsealed machine.old result machine.new }
{
    match machine.seal(alloc) {
        Ok(part) => Reply::new(DONE, part.events.as_slice().len() as u64),
        Err(refusal) => Reply::new(refusal.number(), 0),
    }
}

/// How many seals there were.
#[unsafe(no_mangle)]
pub extern "C" fn fj_c_epoch(alloc: Global, handle: &mut Handle) -> Reply
    ensures { Reads (λ past. reply count past.seals) handle.old.past result handle.new.past }
{
    let Some(machine) = handle.take(alloc) else {
        return Reply::new(NO_MACHINE, 0);
    };
    let epoch = machine.epoch();
    handle.put(machine);
    Reply::new(COUNT, epoch)
}
