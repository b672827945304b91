//! The file of notes that a view reads.
ghost use Rattle.fj_commands.specs.Statuses.{IsOfFailure};

use crate::answer::{told, told_line};
use fj_story::{Notes, NotesFault, read_notes};
use fj_streams::Sink;
use std::alloc::Global;
use std::fs;
use std::io::{self, ErrorKind};
use std::rt::Files;

/// Why there are no notes.
#[derive(Drop)]
pub enum NoNotes {
    /// The file cannot be opened.
    System(io::Error),
    /// It has no notes, or was not read to its end.
    Text(NotesFault),
}

/// Reads the notes of the file of this name.
pub fn notes_in<F: Files>(files: &F, alloc: Global, name: &str) -> Result<Notes, NoNotes> {
    let mut file = match fs::open(files, name) {
        Ok(file) => file,
        Err(error) => return Err(NoNotes::System(error)),
    };
    match read_notes(alloc, &mut file) {
        Ok(notes) => Ok(notes),
        Err(fault) => Err(NoNotes::Text(fault)),
    }
}

/// Writes why there are no notes, and answers the exit status.
pub fn told_of_none<E: Sink>(none: NoNotes, err: &mut E) -> u8
    ensures { IsOfFailure result }
{
    match none {
        NoNotes::System(error) => told_of_error(&error, err),
        NoNotes::Text(NotesFault::Memory) => told(err, "out of memory\n", 4),
        NoNotes::Text(fault) => {
            let status = if matches!(fault, NotesFault::Line(_)) {
                3
            } else {
                5
            };
            told_line(err, "notes: ", fault, status)
        }
    }
}

/// Writes why a file of notes or the clock cannot be used, and answers the exit status.
pub fn told_of_error<E: Sink>(error: &io::Error, err: &mut E) -> u8
    ensures { IsOfFailure result }
{
    if error.kind() == ErrorKind::OutOfMemory {
        return told(err, "out of memory\n", 4);
    }
    told_line(err, "notes: ", error, 5)
}
