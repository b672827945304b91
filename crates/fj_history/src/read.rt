//! The reader of the lines behind a heading.
ghost use Rattle.std.specs.Prelude.{◌≡◌, ◌≤◌, length, Some, Ok, IfOk, OnOk};
ghost use Rattle.fj_lines.specs.Words.{words_behind, if_last, Reads};
ghost use Rattle.fj_history.specs.Entries.{HasEntryLine, entry_line, entry_in};
ghost use Rattle.fj_history.specs.EntryReadings.{entry_said, completer_said, rare_said};
ghost use Rattle.fj_history.specs.declared.entry.Entry.{Entry};

mod event;
mod parts;

use crate::entry::Entry;
use fj_lines::{LineFault, first_word, no_more};
use fj_rules::Event;

/// The most bytes of a line behind a heading, without its line feed: no entry has a longer one.
pub const MAX_ENTRY: usize = 68;

/// Reads a line behind a heading, without its line feed. `LineFault` where it is not one.
/// Whether the numbers are within the limits, and whether the event may follow those before it, is not checked.
pub fn read_entry(line: &[u8]) -> Result<Entry, LineFault>
    ensures value { Reads (entry_in line.now) result }
    // The line is that of the result.
    ensures written { IfOk result (λ entry. HasEntryLine entry × (line.now ≡ entry_line entry)) }
    // Each entry's line is read as that entry.
    ensures read { (entry : Entry) → HasEntryLine entry → line.now ≡ entry_line entry → result ≡ Ok entry }
    ensures short { OnOk result (length line.now ≤ MAX_ENTRY) }
    ensures longest { MAX_ENTRY ≡ 68 }
    // The definition reads each entry's line as that entry.
    ensures again { (entry : Entry) → HasEntryLine entry → entry_in (entry_line entry) ≡ Some entry }
{
    let (verb, behind) = first_word(line);
    entry_said(verb, behind)
}

/// Reads a line by its first word. The most frequent lines come first.
#[tactic(auto, unfolding(crate::specs::EntryReadings::entry_said))]
fn entry_said(verb: &[u8], behind: &[u8]) -> Result<Entry, LineFault>
    ensures { Reads (entry_said verb.now (words_behind behind.now)) result }
{
    if verb == b"acc".as_slice() {
        event::acc(behind)
    } else if verb == b"out".as_slice() {
        event::out(behind)
    } else if verb == b"end".as_slice() {
        event::end(behind)
    } else if verb == b"settle".as_slice() {
        event::settle(behind)
    } else if verb == b"rel".as_slice() {
        event::rel(behind)
    } else {
        completer_said(verb, behind)
    }
}

/// The lines of completers, and all below. Not inlined, so that `entry_said` stays small.
#[tactic(auto, unfolding(crate::specs::EntryReadings::completer_said))]
#[inline(never)]
fn completer_said(verb: &[u8], behind: &[u8]) -> Result<Entry, LineFault>
    ensures { Reads (completer_said verb.now (words_behind behind.now)) result }
{
    if verb == b"dec".as_slice() {
        event::dec(behind)
    } else if verb == b"fire".as_slice() {
        event::fire(behind)
    } else if verb == b"hooked".as_slice() {
        event::hooked(behind)
    } else if verb == b"add".as_slice() {
        event::add(behind)
    } else if verb == b"pass".as_slice() {
        event::pass(behind)
    } else {
        rare_said(verb, behind)
    }
}

/// The lines that are rare.
#[tactic(auto, unfolding(crate::specs::EntryReadings::rare_said))]
fn rare_said(verb: &[u8], behind: &[u8]) -> Result<Entry, LineFault>
    ensures { Reads (rare_said verb.now (words_behind behind.now)) result }
{
    if verb == b"make".as_slice() {
        event::make(behind)
    } else if verb == b"skip".as_slice() {
        event::skip(behind)
    } else if verb == b"close".as_slice() {
        alone(behind, Entry::Event(Event::Close))
    } else if verb == b"stop".as_slice() {
        alone(behind, Entry::Event(Event::Stop))
    } else if verb == b"seal".as_slice() {
        alone(behind, Entry::Seal)
    } else {
        Err(LineFault)
    }
}

/// `entry`, or `LineFault` where a word is left.
fn alone(behind: &[u8], entry: Entry) -> Result<Entry, LineFault>
    ensures { Reads (if_last (words_behind behind.now) entry) result }
{
    no_more(behind)?;
    Ok(entry)
}
