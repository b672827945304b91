ghost use Rattle.std.specs.Prelude.{◌≡◌, ◌∷◌, [], ◌++◌, OnOk, Some, string_bytes};
ghost use Rattle.fj_lines.specs.declared.read.TheConstants.{LINE_FEED};
ghost use Rattle.fj_notes.specs.Notes.{note_line};

use crate::label::Label;
use crate::milestone::Milestone;
use fj_rules::Serial;
use std::alloc::AllocError;
use std::fmt;

/// What a line of notes says. It is displayed as that line, without the line feed.
#[derive(Drop)]
pub enum Note {
    /// The task is called so.
    Name(Serial, Label),
    /// The task came to this milestone so many nanoseconds after the start of the notes.
    Time(Serial, Milestone, u64),
}

impl fmt::Display for Note {
    ghost output = { λ n. Some (note_line n) };

    fn fmt<W: fmt::Write>(&self, f: &mut fmt::Formatter<W>) -> fmt::Result {
        match self {
            Note::Name(t, label) => write!(f, "name {} {label}", t.0),
            Note::Time(t, milestone, nanos) => write!(f, "time {} {milestone} {nanos}", t.0),
        }
    }
}

impl Note {
    /// Appends its line, with the line feed.
    ///
    /// An error comes where the text can't grow. Then a part of the line may have been appended.
    pub fn push_line(&self, text: &mut String) -> Result<(), AllocError>
        ensures { OnOk result (string_bytes text.new ≡ string_bytes text.old ++ (note_line self.now ++ LINE_FEED ∷ [])) }
    {
        writeln!(text, "{self}")
    }
}
