//! A machine is made and freed.
ghost use Rattle.std.specs.Prelude.{◌≡◌, None, IfOk, OnOk, IfErr};
ghost use Rattle.fj_rules.specs.Bounds.{bounds};
ghost use Rattle.fj_rules.specs.Pasts.{fresh};
ghost use Rattle.fj_codes.specs.Asked.{mode_in};
ghost use Rattle.fj_c.specs.Calls.{HasLimits, MakesMachine, RefusesLimits};

use crate::pointer::Handle;
use fj_codes::{BAD_ARGUMENT, DONE, IN_USE, Reply, mode_of};
use fj_machine::Machine;
use fj_rules::{Limits, Mode, Refusal};
use std::alloc::Global;

/// Makes a machine at a handle that has none.
///
/// Refused, with nothing changed: `BAD_ARGUMENT` for an unknown mode, else `IN_USE` if there is a machine, else `BadLimits`, else
/// `OutOfMemory`.
#[unsafe(no_mangle)]
pub extern "C" fn fj_c_new(
    alloc: Global,
    handle: &mut Handle,
    mode: u32,
    workers: u32,
    submitters: u32,
    tasks: u32,
    events: u32,
) -> Reply
    ensures { MakesMachine handle.old.past (mode_in mode) (bounds workers submitters tasks events) result handle.new.past }
{
    let Some(mode) = mode_of(mode) else {
        return Reply::new(BAD_ARGUMENT, 0);
    };
    if let Some(machine) = handle.take(alloc) {
        handle.put(machine);
        return Reply::new(IN_USE, 0);
    }
    match make(alloc, mode, workers, submitters, tasks, events) {
        Ok(machine) => {
            handle.put(machine);
            Reply::new(DONE, 0)
        }
        Err(refusal) => Reply::new(refusal.number(), 0),
    }
}

fn make(
    alloc: Global,
    mode: Mode,
    workers: u32,
    submitters: u32,
    tasks: u32,
    events: u32,
) -> Result<Box<Machine>, Refusal>
    ensures ok { IfOk result (λ b. b.value ≡ fresh mode (bounds workers submitters tasks events)) }
    ensures within { OnOk result (HasLimits (bounds workers submitters tasks events)) }
    ensures err { IfErr result (λ refusal. RefusesLimits (bounds workers submitters tasks events) refusal) }
{
    let limits = Limits::new(workers, submitters, tasks, events)?;
    let machine = Machine::new(alloc, mode, limits)?;
    match Box::new(alloc, machine) {
        Ok(machine) => Ok(machine),
        Err(_) => Err(Refusal::OutOfMemory),
    }
}

/// Frees the machine, if there is one.
#[unsafe(no_mangle)]
pub extern "C" fn fj_c_free(alloc: Global, handle: &mut Handle)
    ensures { handle.new.past ≡ None }
{
    let _machine = handle.take(alloc);
}
