//! Takes notes of a run beside its history: how tasks are called, and when their bodies and completion actions began and ended by a clock.
//!
//! ```
//! let notebook = Notebook::new(alloc, &rt, 10_000)?; // for the first 10,000 tasks
//! let run = record_alone(&rt, alloc, settings, Noted::new(body, &notebook), &Open)?;
//! write_notes(&notebook, alloc, &mut out)?;
//! ```
#![tactic(auto)]

mod labelled;
mod notebook;
mod noted;
mod page;
mod wrapping;
mod writing;

pub use fj_notes::{Label, Milestone, Note, Notes, NotesFault, read_note, read_notes};
pub use fj_record::WriteFault;
pub use labelled::Labelled;
pub use notebook::Notebook;
pub use noted::Noted;
pub use writing::write_notes;
