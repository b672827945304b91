//! The lines of entries.
ghost use Rattle.std.specs.Prelude.{◌≡◌, ◌∷◌, [], ◌++◌, OnOk, map, string_bytes};
ghost use Rattle.fj_lines.specs.declared.read.TheConstants.{LINE_FEED};
ghost use Rattle.fj_history.specs.Entries.{AllHaveCodes, HasCode, entry_line, entries_text};
ghost use Rattle.fj_history.specs.declared.entry.Entry.TheVariants as entry;

use crate::entry::Entry;
use fj_rules::{Event, Status};
use std::alloc::AllocError;

impl Entry {
    /// Appends its line, with the line feed.
    ///
    /// An error comes where the text can't grow. Then a part of the line may have been appended.
    pub fn push_line(&self, text: &mut String) -> Result<(), AllocError>
        ensures { OnOk result (string_bytes text.new ≡ string_bytes text.old ++ (entry_line self.now ++ LINE_FEED ∷ [])) }
    {
        writeln!(text, "{self}")
    }
}

/// Appends the lines of these events, the oldest first: those of a history, or of a part of one.
///
/// An error comes where the text can't grow. Then a part of the lines may have been appended.
pub fn push_entries(events: &[Event], text: &mut String) -> Result<(), AllocError>
    ensures written { OnOk result (string_bytes text.new ≡ string_bytes text.old ++ entries_text (map entry.Event events.now)) }
    ensures codes { OnOk result (AllHaveCodes events.now) }
{
    for event in events {
        // For the proof: its code has 32 bits.
        let _code = code_in(event);
        Entry::Event(*event).push_line(text)?;
    }
    Ok(())
}

/// The code of an event, if it has one.
fn code_in(event: &Event) -> Option<u64>
    ensures { HasCode event.now }
{
    match *event {
        Event::Settle(_, Status::Exceptional(code)) => Some(u64::from(code)),
        _ => None,
    }
}
