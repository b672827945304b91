ghost use Rattle.std.specs.Prelude.{◌≡◌};
ghost use Rattle.fj_streams.specs.Tells.{fault_at};

/// Why a line was not filtered.
#[derive(Debug, Drop)]
pub enum LineStop<S> {
    /// The line may not stand there, for this reason. Nothing was written.
    Stop(S),
    /// Out of memory. Nothing was written.
    Memory,
    /// A write failed. The text of the line may be written in part.
    Write,
}

/// Why lines were not filtered to their end.
#[derive(Debug, Drop)]
pub enum FilterFault<S> {
    /// This line, counted from 1, may not stand there, for this reason. The texts of all lines before it were written.
    Stop(u64, S),
    /// This line, counted from 1, is longer than any that may stand anywhere, or the input ends before its line feed or before the heading.
    /// The texts of all lines before it were written.
    Line(u64),
    /// Out of memory, before the first read or at a line. The texts of all lines before it were written.
    Memory,
    /// A read failed other than by an interruption; or the input did not end in 2^64 - 1 reads, or in as many lines as 64 bits count.
    /// The texts of all whole lines were written.
    Read,
    /// A write or a flush failed other than by an interruption, or a write took nothing, or 2^64 - 1 were interrupted. The first
    /// texts may be written.
    Write,
}

impl<S: Drop> LineStop<S> {
    /// The same fault, of the line with this number.
    pub fn at(self, number: u64) -> FilterFault<S>
        ensures { result ≡ fault_at number self }
    {
        match self {
            LineStop::Stop(stop) => FilterFault::Stop(number, stop),
            LineStop::Memory => FilterFault::Memory,
            LineStop::Write => FilterFault::Write,
        }
    }
}
