ghost use Rattle.std.specs.Prelude.{◌≡◌, [], OnOk, OnErr, IfErr, length};
ghost use Rattle.std.specs.Io.KnownBytes.{Appends};
ghost use Rattle.fj_rules.specs.Parts.{Fits};
ghost use Rattle.fj_rules.specs.Pasts.{present};
ghost use Rattle.fj_history.specs.Entries.{AllHaveCodes};
ghost use Rattle.fj_streams.specs.Beginnings.{AppendsSome};
ghost use Rattle.fj_streams.specs.Calls.{IsFine};
ghost use Rattle.fj_check.specs.Histories.{IsHistory};
ghost use Rattle.fj_record.specs.Texts.{events_told, history_entries, history_text};
ghost use Rattle.fj_record.specs.Writes.{FaultTells, Writes};

use crate::fault::WriteFault;
use crate::parts::{write_events, write_parts};
use crate::writing::write_heading;
use fj_machine::Machine;
use fj_rules::{Event, Limits, Mode, Sealed};
use fj_streams::Sink;
use std::alloc::Global;

/// Writes the history of a machine as text: the heading, each of these parts with its seal, and the events since the last seal. It does
/// not flush. At an error a beginning of the text was written.
///
/// The parts are those that the machine handed out, the oldest first: of a pool, those in the archive of its record. A machine does not
/// tell its mode. Precondition: this is its mode.
///
/// `Memory` if a buffer of 70 KB cannot be allocated. `Write` if a write failed.
pub fn write_history<W: Sink>(
    mode: Mode,
    machine: &Machine,
    parts: &[Sealed],
    alloc: Global,
    w: &mut W,
) -> Result<(), WriteFault>
    requires { mode ≡ machine.now.pool.mode }
    ensures ok { OnOk result (Appends (W.contents w.old) (W.contents w.new) (history_text machine.now.pool parts.now (present machine.now))) }
    ensures err { OnErr result (AppendsSome (W.contents w.old) (W.contents w.new) (history_text machine.now.pool parts.now (present machine.now))) }
    ensures fine { OnOk result (IsFine (W.calls w.old) (W.calls w.new)) }
    ensures told { IfErr result (λ fault. FaultTells fault (W.calls w.old) (W.calls w.new)) }
    // Where these are all parts that the machine handed out, the events of the lines are its whole history.
    ensures whole { Fits parts.now machine.now → events_told (history_entries parts.now (present machine.now)) ≡ machine.now.events }
    // Where nothing was sealed, what was written is a history: `check` says ok to it.
    ensures history { OnOk result (machine.now.seals ≡ 0 → parts.now ≡ [] → IsHistory (history_text machine.now.pool parts.now (present machine.now)) (length machine.now.events)) }
{
    let mut text = String::new(alloc);
    write_all(
        mode,
        machine.limits(),
        parts,
        machine.history(),
        &mut text,
        w,
    )
}

/// The same for these limits and these last events.
fn write_all<W: Sink>(
    mode: Mode,
    limits: Limits,
    parts: &[Sealed],
    events: &[Event],
    text: &mut String,
    w: &mut W,
) -> Result<(), WriteFault>
    ensures written { Writes result (W.contents w.old) (W.contents w.new) (W.calls w.old) (W.calls w.new) (history_text (record { mode = mode; limits = limits }) parts.now events.now) }
    ensures codes { OnOk result (AllHaveCodes events.now) }
{
    write_heading(mode, limits, text, w)?;
    write_parts(parts, text, w)?;
    write_events(events, text, w)
}
