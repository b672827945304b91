//! Events and parts of a history, in writes of at most as many lines as `CHUNK`.
ghost use Rattle.std.specs.Prelude.{OnOk, map};
ghost use Rattle.fj_history.specs.Entries.{AllHaveCodes, entries_text};
ghost use Rattle.fj_history.specs.declared.entry.Entry.TheVariants as entry;
ghost use Rattle.fj_record.specs.Texts.{part_entries, parts_entries};
ghost use Rattle.fj_record.specs.Writes.{Writes};

use crate::fault::WriteFault;
use crate::writing::{write_chunk, write_seal};
use fj_rules::{Event, Sealed};
use fj_streams::Sink;

/// The most lines of a write, 70 KB.
const CHUNK: usize = 1_024;

/// Writes the lines of these events.
pub fn write_events<W: Sink>(
    events: &[Event],
    text: &mut String,
    w: &mut W,
) -> Result<(), WriteFault>
    ensures written { Writes result (W.contents w.old) (W.contents w.new) (W.calls w.old) (W.calls w.new) (entries_text (map entry.Event events.now)) }
    ensures codes { OnOk result (AllHaveCodes events.now) }
{
    let mut at = 0;
    while at < events.len() {
        let count = CHUNK.min(events.len() - at);
        write_chunk(&events[at..at + count], text, w)?;
        at += count;
    }
    Ok(())
}

/// Writes the lines of a part that was sealed.
fn write_part<W: Sink>(part: &Sealed, text: &mut String, w: &mut W) -> Result<(), WriteFault>
    ensures { Writes result (W.contents w.old) (W.contents w.new) (W.calls w.old) (W.calls w.new) (entries_text (part_entries part.now)) }
{
    write_events(part.events.as_slice(), text, w)?;
    write_seal(text, w)
}

/// Writes the lines of these parts, the oldest first.
pub fn write_parts<W: Sink>(
    parts: &[Sealed],
    text: &mut String,
    w: &mut W,
) -> Result<(), WriteFault>
    ensures { Writes result (W.contents w.old) (W.contents w.new) (W.calls w.old) (W.calls w.new) (entries_text (parts_entries parts.now)) }
{
    for part in parts {
        write_part(part, text, w)?;
    }
    Ok(())
}
