//! The run of a script through its stages.
ghost use Rattle.std.specs.Prelude.{◌≡◌, OnOk, IfErr};
ghost use Rattle.fj_streams.specs.Calls.{IsFine};
ghost use Rattle.fj_streams.specs.declared.fault.FilterFault.{FilterFault};
ghost use Rattle.fj_streams.specs.Faults.{Finishes};
ghost use Rattle.fj_streams.specs.Starving.{StarvesFrom};
ghost use Rattle.fj_replay.specs.declared.script_stage.ScriptStage.{ScriptStage};
ghost use Rattle.fj_replay.specs.Stages.{script_rules};
ghost use Rattle.fj_replay.specs.Starving.{NeedsMemory};
ghost use Rattle.fj_replay.specs.Stops.{replay_fault};
ghost use Rattle.fj_replay.specs.Tells.{StopsFrom, seen};

use crate::fault::ReplayFault;
use crate::script_stage::ScriptStage;
use crate::script_stop::ScriptStop;
use fj_streams::{FilterFault, Sink, Source, filter};
use std::alloc::Global;

/// The fault of a replay, or of what reads a script like one, by that of its filter.
pub fn replay_fault(fault: FilterFault<ScriptStop>) -> ReplayFault
    ensures { result ≡ replay_fault fault }
{
    match fault {
        FilterFault::Stop(number, ScriptStop::Faulty) => ReplayFault::Line(number),
        FilterFault::Stop(_, ScriptStop::Limits) => ReplayFault::Limits,
        FilterFault::Line(number) => ReplayFault::Line(number),
        FilterFault::Memory => ReplayFault::Memory,
        FilterFault::Read => ReplayFault::Read,
        FilterFault::Write => ReplayFault::Write,
    }
}

/// Reads a script from this stage on, and writes what its lines give. Flushes before each further read.
pub fn run<R: Source, W: Sink>(
    alloc: Global,
    first: ScriptStage,
    r: &mut R,
    w: &mut W,
) -> Result<(), ReplayFault>
    ensures ok { OnOk result ((last : ScriptStage) × Finishes script_rules first last (R.remaining r.old) (R.remaining r.new) (W.contents w.old) (W.contents w.new)) }
    ensures fine { OnOk result (IsFine (R.calls r.old) (R.calls r.new) × IsFine (W.calls w.old) (W.calls w.new)) }
    ensures err { IfErr result (StopsFrom first (seen R.remaining R.calls r.old r.new) (seen W.contents W.calls w.old w.new)) }
    ensures memory { result ≡ Err ReplayFault.Memory → StarvesFrom script_rules NeedsMemory first FilterFault.Memory (R.remaining r.old) (R.remaining r.new) (W.contents w.old) (W.contents w.new) }
{
    let mut stage = first;
    let ended = run_on(alloc, &mut stage, r, w);
    // Explicit drops are proved faster.
    drop(stage);
    ended
}

/// The same, on a stage that the caller lets go.
fn run_on<R: Source, W: Sink>(
    alloc: Global,
    stage: &mut ScriptStage,
    r: &mut R,
    w: &mut W,
) -> Result<(), ReplayFault>
    ensures ok { OnOk result (Finishes script_rules stage.old stage.new (R.remaining r.old) (R.remaining r.new) (W.contents w.old) (W.contents w.new)) }
    ensures fine { OnOk result (IsFine (R.calls r.old) (R.calls r.new) × IsFine (W.calls w.old) (W.calls w.new)) }
    ensures err { IfErr result (StopsFrom stage.old (seen R.remaining R.calls r.old r.new) (seen W.contents W.calls w.old w.new)) }
    ensures memory { result ≡ Err ReplayFault.Memory → StarvesFrom script_rules NeedsMemory stage.old FilterFault.Memory (R.remaining r.old) (R.remaining r.new) (W.contents w.old) (W.contents w.new) }
{
    match filter(alloc, stage, r, w) {
        Ok(()) => Ok(()),
        Err(fault) => Err(replay_fault(fault)),
    }
}
