use std::fmt::{self, Display, Formatter, Write};

/// A line whose reply is not the expected one.
#[derive(Drop, Debug, PartialEq)]
pub struct Mismatch {
    /// The number of the line, counted from 1.
    pub line: u64,
    /// Its reply.
    pub reply: String,
    /// The expected reply.
    pub expected: String,
}

impl Display for Mismatch {
    fn fmt<W: Write>(&self, f: &mut Formatter<W>) -> fmt::Result {
        write!(
            f,
            "line {}: {}, and not {}",
            self.line, self.reply, self.expected
        )
    }
}
