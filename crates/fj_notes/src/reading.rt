//! The notes of a whole input.
ghost use Rattle.std.specs.Prelude.{IfErr, OnOk};
ghost use Rattle.std.proofs.Common.{rules};
ghost use Rattle.fj_streams.specs.Calls.{IsFine};
ghost use Rattle.fj_notes.specs.Reading.{AreNotesOf, StopsNotes, note_rules};

use crate::fault::{NotesFault, notes_fault};
use crate::notes::Notes;
use crate::read::{MAX_NOTE, read_note};
use fj_lines::LineFault;
use fj_streams::{LineFilter, LineStop, Sink, Source, filter};
use std::alloc::Global;
use std::marker::Model;

/// The notes of the lines before. Contracts see no more than that there are lines.
#[derive(Drop)]
struct Collected {
    notes: Notes,
}

impl Model for Collected {
    ghost use Rattle.std.specs.Prelude.{⊤};

    ghost Value = { ⊤ };

    ghost view = { λ _. tt };
}

impl LineFilter for Collected {
    type Stop = LineFault;

    ghost rules = { note_rules };

    ghost too_long = { λ state line long. Prim.search rules };

    fn longest() -> usize {
        MAX_NOTE
    }

    fn advance<W: Sink>(
        &mut self,
        _alloc: Global,
        line: &[u8],
        w: &mut W,
    ) -> Result<(), LineStop<LineFault>> {
        // Nothing is written.
        let _ = w;
        let note = match read_note(line) {
            Ok(note) => note,
            Err(fault) => return Err(LineStop::Stop(fault)),
        };
        match self.notes.tell(note) {
            Ok(()) => Ok(()),
            Err(_) => Err(LineStop::Memory),
        }
    }

    fn has_heading(&self) -> bool {
        true
    }
}

/// Reads notes to the end of the input.
///
/// `Line` at the first line that is none. `Memory` if out of memory. `Read` if a read failed.
pub fn read_notes<R: Source>(alloc: Global, r: &mut R) -> Result<Notes, NotesFault>
    ensures ok { OnOk result (AreNotesOf (R.remaining r.old) (R.remaining r.new)) }
    ensures err { IfErr result (StopsNotes (R.remaining r.old) (R.remaining r.new)) }
    ensures fine { OnOk result (IsFine (R.calls r.old) (R.calls r.new)) }
{
    let mut state = Collected {
        notes: Notes::new(alloc),
    };
    // Nothing is written to it.
    let mut nothing = Vec::new(alloc);
    let run = filter(alloc, &mut state, r, &mut nothing);
    drop(nothing);
    match run {
        Ok(()) => Ok(state.notes),
        Err(fault) => Err(notes_fault(fault)),
    }
}
