ghost use Rattle.std.specs.Prelude.{◌≡◌, ◌++◌, ◌∷◌, [], Some, OnOk, OnErr, IfOk, IfErr};
ghost use Rattle.std.specs.Io.KnownBytes.{Appends};
ghost use Rattle.fj_lines.specs.declared.read.TheConstants.{LINE_FEED};
ghost use Rattle.fj_streams.specs.Beginnings.{AppendsSome};
ghost use Rattle.fj_streams.specs.Calls.{IsFine};
ghost use Rattle.fj_streams.specs.Faults.{StopsAtLine};
ghost use Rattle.fj_streams.specs.Tells.{WriterTells};
ghost use Rattle.fj_replay.specs.Stops.{IsCutOff};
ghost use Rattle.fj_record.specs.Traces.{stage_after, line_text, trace_rules};
ghost use Rattle.fj_record.specs.LongLines.{too_long_script};

use crate::tracer::Tracer;
use fj_lines::{LINE_FEED, MAX_LINE2};
use fj_replay::{Names, ScriptStop, TaskNaming, is_title};
use fj_streams::{LineFilter, LineStop, Sink, write_all};
use std::alloc::{AllocError, Global};
use std::mem;

/// The state of reading a script whose history is written.
#[derive(Drop)]
pub enum TraceStage {
    /// Before its first line.
    Start,
    /// After a first line `fj 2`: the heading comes next.
    Titled,
    /// After its heading.
    Going(Tracer),
}

impl LineFilter for TraceStage {
    type Stop = ScriptStop;

    ghost rules = { trace_rules };

    ghost too_long = { too_long_script };

    fn longest() -> usize {
        MAX_LINE2
    }

    /// Handles the next line. Nothing is written at `fj 2`, the heading at the heading, and its entries at any other line.
    fn advance<W: Sink>(
        &mut self,
        alloc: Global,
        line: &[u8],
        w: &mut W,
    ) -> Result<(), LineStop<ScriptStop>> {
        match self {
            TraceStage::Start => self.begin(alloc, line, w),
            TraceStage::Titled => self.open(alloc, line, w),
            TraceStage::Going(tracer) => match tracer.read(line) {
                Ok(asked) => tracer.trace(alloc, asked, w),
                Err(_) => Err(LineStop::Stop(ScriptStop::Faulty)),
            },
        }
    }

    fn has_heading(&self) -> bool {
        matches!(self, TraceStage::Going(_))
    }
}

impl TraceStage {
    /// Handles the first line, at `Start`.
    fn begin<W: Sink>(
        &mut self,
        alloc: Global,
        line: &[u8],
        w: &mut W,
    ) -> Result<(), LineStop<ScriptStop>>
        ensures next { OnOk result (stage_after TraceStage.Start line.now ≡ Some self.new) }
        ensures wrote { OnOk result (Appends (W.contents w.old) (W.contents w.new) (line_text TraceStage.Start line.now)) }
        ensures err { IfErr result (λ stop. StopsAtLine trace_rules TraceStage.Start line.now stop (W.contents w.old) (W.contents w.new)) }
        ensures fine { OnOk result (IsFine (W.calls w.old) (W.calls w.new)) }
        ensures told { IfErr result (λ stop. WriterTells stop (W.calls w.old) (W.calls w.new)) }
        ensures memory { result ≡ Err LineStop.Memory → Appends (W.contents w.old) (W.contents w.new) [] }
    {
        if is_title(line) {
            self.set(TraceStage::Titled);
            return Ok(());
        }
        let tracer = Tracer::open(alloc, line, TaskNaming::Numbers)?;
        self.set(TraceStage::Going(tracer));
        write_heading(alloc, line, w)
    }

    /// Handles the heading, at `Titled`.
    fn open<W: Sink>(
        &mut self,
        alloc: Global,
        line: &[u8],
        w: &mut W,
    ) -> Result<(), LineStop<ScriptStop>>
        ensures next { OnOk result (stage_after TraceStage.Titled line.now ≡ Some self.new) }
        ensures wrote { OnOk result (Appends (W.contents w.old) (W.contents w.new) (line_text TraceStage.Titled line.now)) }
        ensures err { IfErr result (λ stop. StopsAtLine trace_rules TraceStage.Titled line.now stop (W.contents w.old) (W.contents w.new)) }
        ensures fine { OnOk result (IsFine (W.calls w.old) (W.calls w.new)) }
        ensures told { IfErr result (λ stop. WriterTells stop (W.calls w.old) (W.calls w.new)) }
        ensures memory { result ≡ Err LineStop.Memory → Appends (W.contents w.old) (W.contents w.new) [] }
    {
        let names = Names::new(alloc);
        let tracer = Tracer::open(alloc, line, TaskNaming::Names(names))?;
        self.set(TraceStage::Going(tracer));
        write_heading(alloc, line, w)
    }

    /// Goes on to another stage. By a call of `drop`, since an assignment proves the drop of the stage before in place.
    fn set(&mut self, next: TraceStage)
        ensures { self.new ≡ next }
    {
        drop(mem::replace(self, next));
    }
}

/// Writes a heading and a line feed. At `Memory` nothing was written, at `Write` only a part of them, or nothing.
fn write_heading<W: Sink>(
    alloc: Global,
    heading: &[u8],
    w: &mut W,
) -> Result<(), LineStop<ScriptStop>>
    ensures written { OnOk result (Appends (W.contents w.old) (W.contents w.new) (heading.now ++ LINE_FEED ∷ [])) }
    ensures err { IfErr result IsCutOff }
    ensures fine { OnOk result (IsFine (W.calls w.old) (W.calls w.new)) }
    ensures told { IfErr result (λ fault. WriterTells fault (W.calls w.old) (W.calls w.new)) }
    ensures some { OnErr result (AppendsSome (W.contents w.old) (W.contents w.new) (heading.now ++ LINE_FEED ∷ [])) }
    ensures memory { result ≡ Err LineStop.Memory → Appends (W.contents w.old) (W.contents w.new) [] }
{
    match with_feed(alloc, heading) {
        Ok(text) => write_all(w, text.as_slice()),
        Err(_) => Err(LineStop::Memory),
    }
}

fn with_feed(alloc: Global, heading: &[u8]) -> Result<Vec<u8>, AllocError>
    ensures { IfOk result (λ text. text.items ≡ heading.now ++ LINE_FEED ∷ []) }
{
    let mut text = Vec::new(alloc);
    text.extend_from_slice(heading)?;
    text.push(LINE_FEED)?;
    Ok(text)
}
