ghost use Rattle.std.specs.Prelude.{◌≡◌, [], Some, OnOk, IfErr, false};
ghost use Rattle.std.specs.Io.KnownBytes.{Appends};
ghost use Rattle.fj_streams.specs.Calls.{IsFine};
ghost use Rattle.fj_streams.specs.Faults.{StopsAtLine};
ghost use Rattle.fj_streams.specs.Tells.{WriterTells};
ghost use Rattle.fj_replay.specs.Plays.{is_title};
ghost use Rattle.fj_replay.specs.Stages.{stage_after, line_text, script_rules};
ghost use Rattle.fj_replay.specs.Starving.{NeedsMemory};
ghost use Rattle.fj_replay.specs.LongLines.{too_long};
ghost use Rattle.fj_replay.specs.Stops.{IsHeadStop};

use crate::names::Names;
use crate::responder::Responder;
use crate::rewriter::Rewriter;
use crate::script_stop::ScriptStop;
use crate::task_naming::TaskNaming;
use crate::title::{is_title, write_head};
use fj_lines::{MAX_LINE2, read_step};
use fj_streams::{LineFilter, LineStop, Sink};
use std::alloc::Global;
use std::mem;

/// The state of reading a script: a replay begins at `Start`, an upgrade to version 2 at `Old`.
#[derive(Drop)]
pub enum ScriptStage {
    /// Before its first line.
    Start,
    /// After a first line `fj 2`: the heading comes next.
    Titled,
    /// After its heading.
    Plays(Responder),
    /// Before the heading of a script of version 1 to upgrade.
    Old,
    /// After that heading.
    Rewrites(Rewriter),
}

impl LineFilter for ScriptStage {
    type Stop = ScriptStop;

    ghost rules = { script_rules };

    ghost too_long = { too_long };

    ghost needs_memory = { NeedsMemory };

    fn longest() -> usize {
        MAX_LINE2
    }

    /// Handles the next line. A replay writes nothing at `fj 2` and at a heading, and the reply at any other line; an upgrade writes the
    /// line in version 2.
    fn advance<W: Sink>(
        &mut self,
        alloc: Global,
        line: &[u8],
        w: &mut W,
    ) -> Result<(), LineStop<ScriptStop>> {
        match self {
            ScriptStage::Start => self.begin(alloc, line),
            ScriptStage::Titled => self.open(alloc, line),
            ScriptStage::Plays(responder) => match responder.read(line) {
                Ok(asked) => responder.reply(alloc, asked, w),
                Err(_) => Err(LineStop::Stop(ScriptStop::Faulty)),
            },
            ScriptStage::Old => self.rewrite_head(alloc, line, w),
            ScriptStage::Rewrites(rewriter) => {
                let Ok(asked) = read_step(line) else {
                    return Err(LineStop::Stop(ScriptStop::Faulty));
                };
                rewriter.rewrite(&asked, w)
            }
        }
    }

    fn has_heading(&self) -> bool {
        match self {
            ScriptStage::Start | ScriptStage::Titled | ScriptStage::Old => false,
            ScriptStage::Plays(_) | ScriptStage::Rewrites(_) => true,
        }
    }
}

impl ScriptStage {
    // Each call clears its frame, so the new stages of the three below, which a script makes once, are kept out of that of `advance`.

    /// Handles the first line, at `Start`.
    #[cold]
    #[inline(never)]
    fn begin(&mut self, alloc: Global, line: &[u8]) -> Result<(), LineStop<ScriptStop>>
        ensures next { OnOk result (stage_after ScriptStage.Start line.now ≡ Some self.new) }
        ensures err { IfErr result (λ stop. (is_title line.now ≡ false) × IsHeadStop line.now stop) }
    {
        if is_title(line) {
            self.set(ScriptStage::Titled);
            return Ok(());
        }
        let responder = Responder::open(alloc, line, TaskNaming::Numbers)?;
        self.set(ScriptStage::Plays(responder));
        Ok(())
    }

    /// Handles the heading, at `Titled`.
    #[cold]
    #[inline(never)]
    fn open(&mut self, alloc: Global, line: &[u8]) -> Result<(), LineStop<ScriptStop>>
        ensures next { OnOk result (stage_after ScriptStage.Titled line.now ≡ Some self.new) }
        ensures err { IfErr result (IsHeadStop line.now) }
    {
        let names = Names::new(alloc);
        let responder = Responder::open(alloc, line, TaskNaming::Names(names))?;
        self.set(ScriptStage::Plays(responder));
        Ok(())
    }

    /// Handles the heading, at `Old`.
    #[cold]
    #[inline(never)]
    fn rewrite_head<W: Sink>(
        &mut self,
        alloc: Global,
        line: &[u8],
        w: &mut W,
    ) -> Result<(), LineStop<ScriptStop>>
        ensures next { OnOk result (stage_after ScriptStage.Old line.now ≡ Some self.new) }
        ensures wrote { OnOk result (Appends (W.contents w.old) (W.contents w.new) (line_text ScriptStage.Old line.now)) }
        ensures err { IfErr result (λ stop. StopsAtLine script_rules ScriptStage.Old line.now stop (W.contents w.old) (W.contents w.new)) }
        ensures fine { OnOk result (IsFine (W.calls w.old) (W.calls w.new)) }
        ensures told { IfErr result (λ stop. WriterTells stop (W.calls w.old) (W.calls w.new)) }
        ensures memory { result ≡ Err LineStop.Memory → Appends (W.contents w.old) (W.contents w.new) [] }
    {
        let rewriter = Rewriter::open(alloc, line)?;
        self.set(ScriptStage::Rewrites(rewriter));
        write_head(alloc, line, w)
    }

    /// Goes on to another stage. By a call of `drop`, since an assignment proves the drop of the stage before in place.
    fn set(&mut self, next: ScriptStage)
        ensures { self.new ≡ next }
    {
        drop(mem::replace(self, next));
    }
}
