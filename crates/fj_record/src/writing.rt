//! Single texts, each by one write. A text is made in a buffer that is cleared before.
ghost use Rattle.std.specs.Prelude.{◌∷◌, [], ◌++◌, OnOk, map};
ghost use Rattle.fj_lines.specs.declared.read.TheConstants.{LINE_FEED};
ghost use Rattle.fj_history.specs.Entries.{AllHaveCodes, entries_text};
ghost use Rattle.fj_history.specs.Headings.{heading_line};
ghost use Rattle.fj_history.specs.declared.entry.Entry.TheVariants as entry;
ghost use Rattle.fj_record.specs.Writes.{Writes};

use crate::fault::WriteFault;
use fj_history::{Entry, push_entries, push_heading};
use fj_rules::{Event, Limits, Mode};
use fj_streams::{Sink, write_whole};

/// Writes the heading.
pub fn write_heading<W: Sink>(
    mode: Mode,
    limits: Limits,
    text: &mut String,
    w: &mut W,
) -> Result<(), WriteFault>
    ensures { Writes result (W.contents w.old) (W.contents w.new) (W.calls w.old) (W.calls w.new) (heading_line mode limits ++ LINE_FEED ∷ []) }
{
    text.clear();
    match push_heading(mode, limits, text) {
        Ok(()) => write_text(text.as_str(), w),
        Err(_) => Err(WriteFault::Memory),
    }
}

/// Writes the lines of these events.
pub fn write_chunk<W: Sink>(
    events: &[Event],
    text: &mut String,
    w: &mut W,
) -> Result<(), WriteFault>
    ensures written { Writes result (W.contents w.old) (W.contents w.new) (W.calls w.old) (W.calls w.new) (entries_text (map entry.Event events.now)) }
    ensures codes { OnOk result (AllHaveCodes events.now) }
{
    text.clear();
    match push_entries(events, text) {
        Ok(()) => write_text(text.as_str(), w),
        Err(_) => Err(WriteFault::Memory),
    }
}

/// Writes the line of a seal.
pub fn write_seal<W: Sink>(text: &mut String, w: &mut W) -> Result<(), WriteFault>
    ensures { Writes result (W.contents w.old) (W.contents w.new) (W.calls w.old) (W.calls w.new) (entries_text (entry.Seal ∷ [])) }
{
    text.clear();
    match Entry::Seal.push_line(text) {
        Ok(()) => write_text(text.as_str(), w),
        Err(_) => Err(WriteFault::Memory),
    }
}

/// Writes the whole text. `Write` where a write failed.
pub fn write_text<W: Sink>(text: &str, w: &mut W) -> Result<(), WriteFault>
    ensures { Writes result (W.contents w.old) (W.contents w.new) (W.calls w.old) (W.calls w.new) text.now }
{
    match write_whole(w, text.as_bytes()) {
        Ok(()) => Ok(()),
        Err(_) => Err(WriteFault::Write),
    }
}
