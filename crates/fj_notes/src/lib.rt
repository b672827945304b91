//! Notes beside a history, as text: how a task is called, and when its body and its completion action began and ended.
//!
//! [`read_note`] reads a line, and a [`Note`] is displayed as its line. Each knows exactly the canonical lines. [`read_notes`] reads a whole
//! input.
#![tactic(auto)]

mod fault;
mod label;
mod milestone;
mod note;
mod notes;
mod read;
mod reading;

pub use fault::NotesFault;
pub use label::{Label, MAX_LABEL};
pub use milestone::Milestone;
pub use note::Note;
pub use notes::Notes;
pub use read::{MAX_NOTE, read_note};
pub use reading::read_notes;
