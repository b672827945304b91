ghost use Rattle.std.specs.Prelude.{◌≡◌, Some};
ghost use Rattle.fj_notes.specs.Notes.{milestone_word};

use std::fmt;

/// What a time is of. It is displayed as its word.
#[derive(Clone, Copy, Debug, PartialEq)]
pub enum Milestone {
    /// The first turn of the body began.
    Begin,
    /// The last turn of the body ended.
    End,
    /// The completion action began.
    Fire,
    /// The completion action ended.
    Hooked,
}

impl fmt::Display for Milestone {
    ghost output = { λ m. Some (milestone_word m) };

    fn fmt<W: fmt::Write>(&self, f: &mut fmt::Formatter<W>) -> fmt::Result {
        f.write_str(self.word())
    }
}

impl Milestone {
    /// Its word in a line.
    fn word(&self) -> &'static str
        ensures { result.now ≡ milestone_word self.now }
    {
        match self {
            Milestone::Begin => "begin",
            Milestone::End => "end",
            Milestone::Fire => "fire",
            Milestone::Hooked => "hooked",
        }
    }
}
