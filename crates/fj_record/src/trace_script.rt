ghost use Rattle.std.specs.Prelude.{◌≡◌, OnOk, IfErr};
ghost use Rattle.fj_streams.specs.Calls.{IsFine};
ghost use Rattle.fj_streams.specs.declared.fault.FilterFault.{FilterFault};
ghost use Rattle.fj_streams.specs.Faults.{Finishes};
ghost use Rattle.fj_streams.specs.Tells.{StopsFrom, seen};
ghost use Rattle.fj_replay.specs.declared.script_stop.ScriptStop.{ScriptStop};
ghost use Rattle.fj_replay.specs.Stops.{replay_fault};
ghost use Rattle.fj_record.specs.Traced.{PrintsHistories, StopsTrace, Traces};
ghost use Rattle.fj_record.specs.Traces.{trace_rules};

use crate::trace_stage::TraceStage;
use fj_replay::{ReplayFault, replay_fault};
use fj_streams::{Sink, Source, filter};
use std::alloc::Global;

/// Reads a script of either version, makes its steps and writes the history of its run, as it goes: the heading, and then for each line
/// the events that it adds, or `seal`.
///
/// It fails as `replay` does. The writer is flushed before each further read.
pub fn trace<R: Source, W: Sink>(alloc: Global, r: &mut R, w: &mut W) -> Result<(), ReplayFault>
    ensures ok { OnOk result (Traces (R.remaining r.old) (R.remaining r.new) (W.contents w.old) (W.contents w.new)) }
    ensures fine { OnOk result (IsFine (R.calls r.old) (R.calls r.new) × IsFine (W.calls w.old) (W.calls w.new)) }
    ensures err { IfErr result (StopsTrace (seen R.remaining R.calls r.old r.new) (seen W.contents W.calls w.old w.new)) }
    // What is written is a history.
    ensures history { PrintsHistories }
{
    let mut stage = TraceStage::Start;
    let ended = trace_on(alloc, &mut stage, r, w);
    // Explicit drops are proved faster.
    drop(stage);
    ended
}

/// The same from any stage.
fn trace_on<R: Source, W: Sink>(
    alloc: Global,
    stage: &mut TraceStage,
    r: &mut R,
    w: &mut W,
) -> Result<(), ReplayFault>
    ensures ok { OnOk result (Finishes trace_rules stage.old stage.new (R.remaining r.old) (R.remaining r.new) (W.contents w.old) (W.contents w.new)) }
    ensures fine { OnOk result (IsFine (R.calls r.old) (R.calls r.new) × IsFine (W.calls w.old) (W.calls w.new)) }
    ensures err { IfErr result (λ fault. (why : FilterFault ScriptStop) × (fault ≡ replay_fault why) × StopsFrom trace_rules stage.old (seen R.remaining R.calls r.old r.new) (seen W.contents W.calls w.old w.new) why) }
{
    match filter(alloc, stage, r, w) {
        Ok(()) => Ok(()),
        Err(fault) => Err(replay_fault(fault)),
    }
}
