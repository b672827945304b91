ghost use Rattle.std.specs.Prelude.{ℕ, ⊤, ◌≡◌, ◌<◌, List, length, None, Some, OnOk, IfErr};
ghost use Rattle.std.specs.Io.KnownBytes.{Appends};
ghost use Rattle.fj_streams.specs.Calls.{IsFine};
ghost use Rattle.fj_streams.specs.Rules.{Rules};
ghost use Rattle.fj_streams.specs.Faults.{StopsAtLine};
ghost use Rattle.fj_streams.specs.Starving.{StarvesAtLine};
ghost use Rattle.fj_streams.specs.Tells.{WriterTells};

use crate::fault::LineStop;
use crate::streams::Sink;
use std::alloc::Global;

/// The state between the lines of an input, and what is done at a line: a filter.
pub trait LineFilter: Drop {
    /// Why a line may not stand where it does.
    type Stop: Drop;

    /// What follows a line, what is written at it, and where it may not stand.
    ghost rules: { Rules Self Self.Stop };

    /// Where `advance` may run out of memory: at which lines, by the state before them. Anywhere, if a filter does not say.
    ghost needs_memory: { Self → List ℕ → Type 0 } = { λ _ _. ⊤ };

    /// The most bytes of a line that may stand anywhere, without its line feed.
    fn longest() -> usize
        ensures { result ≡ rules.longest };

    /// Handles the next line, which comes without its line feed, and writes its text.
    ///
    /// `Stop` where it may not stand there, and `Memory` where out of memory; then nothing was written. `Write` where the writer failed; then
    /// a part of the text, or nothing, was written.
    fn advance<W: Sink>(
        &mut self,
        alloc: Global,
        line: &[u8],
        w: &mut W,
    ) -> Result<(), LineStop<Self::Stop>>
        ensures next { OnOk result (rules.after self.old line.now ≡ Some self.new) }
        ensures wrote { OnOk result (Appends (W.contents w.old) (W.contents w.new) (rules.text self.old line.now)) }
        ensures err { IfErr result (λ fault. StopsAtLine rules self.old line.now fault (W.contents w.old) (W.contents w.new)) }
        ensures fine { OnOk result (IsFine (W.calls w.old) (W.calls w.new)) }
        ensures told { IfErr result (λ fault. WriterTells fault (W.calls w.old) (W.calls w.new)) }
        ensures memory { IfErr result (λ fault. StarvesAtLine needs_memory self.old line.now fault (W.contents w.old) (W.contents w.new)) };

    /// Whether the input may end here: its heading has come.
    fn has_heading(&self) -> bool
        ensures { result ≡ rules.has_heading self.now };

    /// No longer line may stand anywhere.
    ghost too_long: { (state : Self) (line : List ℕ) → rules.longest < length line → rules.after state line ≡ None };
}
