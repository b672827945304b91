ghost use Rattle.std.specs.Prelude.{◌≡◌};
ghost use Rattle.fj_notes.specs.Reading.{notes_fault};

use fj_lines::LineFault;
use fj_streams::FilterFault;
use thiserror::Error;

/// Why an input is not one of notes, or was not read to its end.
#[derive(Clone, Copy, Debug, PartialEq, Error)]
pub enum NotesFault {
    /// This line, counted from 1, is no note, or the input ends before its line feed. All lines before it are notes.
    #[error("fault: line {0}")]
    Line(u64),
    /// Out of memory.
    #[error("out of memory")]
    Memory,
    /// A read failed other than by an interruption; or the input did not end in 2^64 - 1 reads, or in as many lines as 64 bits count.
    #[error("read failed")]
    Read,
}

/// The fault of a reading, by that of its filter.
pub(crate) fn notes_fault(fault: FilterFault<LineFault>) -> NotesFault
    ensures { result ≡ notes_fault fault }
{
    match fault {
        FilterFault::Stop(n, LineFault) | FilterFault::Line(n) => NotesFault::Line(n),
        // A write to a vector fails only if out of memory.
        FilterFault::Memory | FilterFault::Write => NotesFault::Memory,
        FilterFault::Read => NotesFault::Read,
    }
}
