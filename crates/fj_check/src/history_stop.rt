use fj_checker::Objection;

/// Why a line may not stand where it does.
#[derive(Clone, Copy, Debug)]
pub enum HistoryStop {
    /// It is that of an event, or of a seal, that may not come now.
    Objection(Objection),
    /// It is not the heading or the entry that is due there.
    Line,
    /// It is a heading with a limit out of its range.
    Limits,
}
