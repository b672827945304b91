use std::fmt;

/// A body that says how its task is called. Java has no counterpart.
pub trait Labelled {
    /// Writes the label, as `core.o`, before the first turn of the body. Where it writes nothing the task has none.
    fn write_label<W: fmt::Write>(&self, w: &mut W) -> fmt::Result;
}
