//! The text of a history.
ghost use Rattle.std.specs.Prelude.{◌≡◌, ◌++◌, ◌∷◌, [], None, Some, IfOk, MatchOption, string_bytes};
ghost use Rattle.fj_lines.specs.declared.read.TheConstants.{LINE_FEED};
ghost use Rattle.fj_history.specs.Entries.{entry_line};
ghost use Rattle.fj_history.specs.Headings.{heading_line};
ghost use Rattle.fj_history.specs.declared.entry.Entry.TheVariants as entry;
ghost use Rattle.fj_rules.specs.Bounds.{bounds};
ghost use Rattle.fj_codes.specs.Asked.{mode_in};
ghost use Rattle.fj_c.specs.History.{event_at};
ghost use Rattle.fj_c.specs.Texts.{Prints, PrintsEvent, PrintsHeading};

use crate::pointer::Handle;
use fj_codes::{BAD_ARGUMENT, COUNT, NO_MACHINE, NO_PLACE, Reply, TOO_SMALL, mode_of};
use fj_history::{Entry, push_heading};
use fj_machine::Machine;
use fj_rules::{Event, InnerTypes, Limits, Mode, Refusal};
use std::alloc::{AllocError, Global};

/// Writes the heading of a history into `out`, with its line feed.
///
/// Refused, with nothing written: `BAD_ARGUMENT` for an unknown mode, else `BadLimits`, else `OutOfMemory`, else `TOO_SMALL`.
#[unsafe(no_mangle)]
pub extern "C" fn fj_c_print_heading(
    alloc: Global,
    mode: u32,
    workers: u32,
    submitters: u32,
    tasks: u32,
    events: u32,
    out: &mut [u8],
) -> Reply
    ensures { PrintsHeading (mode_in mode) (bounds workers submitters tasks events) out.old result out.new }
{
    let Some(mode) = mode_of(mode) else {
        return Reply::new(BAD_ARGUMENT, 0);
    };
    let Ok(limits) = Limits::new(workers, submitters, tasks, events) else {
        return Reply::new(Refusal::BadLimits.number(), 0);
    };
    match heading(alloc, mode, limits) {
        Ok(line) => print(&line, out),
        Err(_) => Reply::new(Refusal::OutOfMemory.number(), 0),
    }
}

fn heading(alloc: Global, mode: Mode, limits: Limits) -> Result<String, AllocError>
    ensures { IfOk result (λ line. string_bytes line ≡ heading_line mode limits ++ LINE_FEED ∷ []) }
{
    let mut line = String::new(alloc);
    push_heading(mode, limits, &mut line)?;
    Ok(line)
}

/// Writes the line of the event at a place into `out`, with its line feed.
///
/// Refused, with nothing written: `NO_PLACE` if there is none there, else `OutOfMemory`, else `TOO_SMALL`.
#[unsafe(no_mangle)]
pub extern "C" fn fj_c_print_event(
    alloc: Global,
    handle: &mut Handle,
    place: u64,
    out: &mut [u8],
) -> Reply
    ensures stays { handle.new.past ≡ handle.old.past }
    ensures printed { PrintsEvent place handle.old.past out.old result out.new }
{
    let Some(machine) = handle.take(alloc) else {
        return Reply::new(NO_MACHINE, 0);
    };
    let reply = print_event(alloc, &machine, place, out);
    handle.put(machine);
    reply
}

fn print_event(alloc: Global, machine: &Machine, place: u64, out: &mut [u8]) -> Reply
    ensures { PrintsEvent place (Some machine.now) out.old result out.new }
{
    let _inside: Option<InnerTypes> = None;
    let history = machine.history();
    let place = place as usize;
    if place >= history.len() {
        return Reply::new(NO_PLACE, 0);
    }
    match event_line(alloc, &history[place]) {
        Ok(line) => print(&line, out),
        Err(_) => Reply::new(Refusal::OutOfMemory.number(), 0),
    }
}

fn event_line(alloc: Global, event: &Event) -> Result<String, AllocError>
    ensures { IfOk result (λ line. string_bytes line ≡ entry_line (entry.Event event.now) ++ LINE_FEED ∷ []) }
{
    let mut line = String::new(alloc);
    Entry::Event(*event).push_line(&mut line)?;
    Ok(line)
}

/// Copies a line, if there is room.
fn print(line: &String, out: &mut [u8]) -> Reply
    ensures { Prints (string_bytes line.now) out.old result out.new }
{
    let bytes = line.as_bytes();
    let len = bytes.len();
    if len > out.len() {
        return Reply::new(TOO_SMALL, len as u64);
    }
    out[..len].copy_from_slice(bytes);
    Reply::new(COUNT, len as u64)
}
