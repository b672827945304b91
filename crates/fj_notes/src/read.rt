//! The reader of lines.
ghost use Rattle.std.specs.Prelude.{◌≡◌, ◌≤◌, length, Some, Ok, IfOk, OnOk};
ghost use Rattle.fj_lines.specs.Words.{words_behind, Reads};
ghost use Rattle.fj_notes.specs.Notes.{HasNoteLine, note_line, note_in};
ghost use Rattle.fj_notes.specs.NoteReadings.{label_in, label_said, milestone_said, name_in, note_said, time_in};
ghost use Rattle.fj_notes.specs.declared.note.Note.{Note};

mod nanos;

use crate::label::Label;
use crate::milestone::Milestone;
use crate::note::Note;
use crate::read::nanos::read_nanos;
use fj_lines::{LineFault, first_word, next_number, next_word, no_more};
use fj_rules::Serial;

/// The most bytes of a line, without its line feed: no note has a longer one.
pub const MAX_NOTE: usize = 80;

/// Reads a line, without its line feed. `LineFault` where it is not one. Whether there is such a task is not checked.
pub fn read_note(line: &[u8]) -> Result<Note, LineFault>
    ensures value { Reads (note_in line.now) result }
    // The line is that of the result.
    ensures written { IfOk result (λ note. HasNoteLine note × (line.now ≡ note_line note)) }
    // Each note's line is read as that note.
    ensures read { (note : Note) → HasNoteLine note → line.now ≡ note_line note → result ≡ Ok note }
    ensures short { OnOk result (length line.now ≤ MAX_NOTE) }
    // The definition reads each note's line as that note.
    ensures again { (note : Note) → HasNoteLine note → note_in (note_line note) ≡ Some note }
{
    let (verb, behind) = first_word(line);
    note_said(verb, behind)
}

/// Reads a line by its first word.
#[tactic(auto, unfolding(crate::specs::NoteReadings::note_said))]
fn note_said(verb: &[u8], behind: &[u8]) -> Result<Note, LineFault>
    ensures { Reads (note_said verb.now (words_behind behind.now)) result }
{
    if verb == b"name".as_slice() {
        read_name(behind)
    } else if verb == b"time".as_slice() {
        read_time(behind)
    } else {
        Err(LineFault)
    }
}

/// Reads what follows `name`: the task and its label.
#[tactic(auto, unfolding(crate::specs::NoteReadings::name_in))]
fn read_name(behind: &[u8]) -> Result<Note, LineFault>
    ensures { Reads (name_in (words_behind behind.now)) result }
{
    let (t, behind) = next_number(behind)?;
    let label = read_label(behind)?;
    Ok(Note::Name(Serial(u64::from(t)), label))
}

/// Reads a label, up to the end of the line: all that is left behind a space.
fn read_label(behind: &[u8]) -> Result<Label, LineFault>
    ensures { Reads (label_said (words_behind behind.now)) result }
{
    match behind.split_first() {
        Some((_, text)) => label_of(text),
        None => Err(LineFault),
    }
}

/// The bytes as a label. `LineFault` where they are none.
fn label_of(text: &[u8]) -> Result<Label, LineFault>
    ensures { Reads (label_in text.now) result }
{
    match Label::from_bytes(text) {
        Some(label) => Ok(label),
        None => Err(LineFault),
    }
}

/// Reads what follows `time`: the task, the milestone and the nanoseconds.
#[tactic(auto, unfolding(crate::specs::NoteReadings::time_in))]
fn read_time(behind: &[u8]) -> Result<Note, LineFault>
    ensures { Reads (time_in (words_behind behind.now)) result }
{
    let (t, behind) = next_number(behind)?;
    let (word, behind) = next_word(behind)?;
    let milestone = read_milestone(word)?;
    let (number, behind) = next_word(behind)?;
    let nanos = read_nanos(number)?;
    no_more(behind)?;
    Ok(Note::Time(Serial(u64::from(t)), milestone, nanos))
}

/// Reads a milestone.
fn read_milestone(word: &[u8]) -> Result<Milestone, LineFault>
    ensures { Reads (milestone_said word.now) result }
{
    if word == b"begin".as_slice() {
        Ok(Milestone::Begin)
    } else if word == b"end".as_slice() {
        Ok(Milestone::End)
    } else if word == b"fire".as_slice() {
        Ok(Milestone::Fire)
    } else if word == b"hooked".as_slice() {
        Ok(Milestone::Hooked)
    } else {
        Err(LineFault)
    }
}
