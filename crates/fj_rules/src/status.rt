use std::fmt;

/// How far a task has come. The first status other than `Undone` is final.
///
/// It is displayed as in the reply `state`.
#[derive(Clone, Copy, Debug, PartialEq)]
pub enum Status {
    /// Not completed yet.
    Undone,
    /// Completed without a fault: `ForkJoinTask.isCompletedNormally`.
    Normal,
    /// Completed with a fault, of this code.
    Exceptional(u32),
    /// Cancelled: `ForkJoinTask.isCancelled`.
    Cancelled,
}

impl Status {
    ghost use Rattle.std.specs.Prelude.{◌≡◌};
    ghost use Rattle.fj_rules.specs.Statuses.{is_undone};

    /// Whether the task is not completed yet: the negation of `ForkJoinTask.isDone`.
    pub fn is_undone(self) -> bool
        ensures { result ≡ is_undone self }
    {
        matches!(self, Status::Undone)
    }
}

impl fmt::Display for Status {
    ghost use Rattle.std.specs.Prelude.{Some};
    ghost use Rattle.std.specs.List.{join_with_byte};
    ghost use Rattle.fj_rules.specs.Statuses.{status_words};

    // a space between words
    ghost output = { λ s. Some (join_with_byte 32 (status_words s)) };

    fn fmt<W: fmt::Write>(&self, f: &mut fmt::Formatter<W>) -> fmt::Result {
        match self {
            Status::Undone => f.write_str("undone"),
            Status::Normal => f.write_str("normal"),
            Status::Exceptional(code) => write!(f, "exceptional {code}"),
            Status::Cancelled => f.write_str("cancelled"),
        }
    }
}
