//! The upgrade of a script to version 2, from a reader to a writer or in memory.
ghost use Rattle.std.specs.Prelude.{◌≡◌, ◌≢◌, ℕ, OnOk, IfOk, IfErr, List, [], Option, Some, true, false};
ghost use Rattle.std.specs.Io.KnownBytes.{Appends};
ghost use Rattle.fj_streams.specs.Calls.{IsFine};
ghost use Rattle.fj_streams.specs.Cuts.{lines};
ghost use Rattle.fj_replay.specs.Tells.{StopsUpgrade, seen};
ghost use Rattle.fj_replay.specs.Scripts.{is_titled, up};
ghost use Rattle.fj_replay.specs.Faults.{EndsUpgrade, IsOldScript, Upgrades};
ghost use Rattle.fj_replay.specs.Upgrades.{KeepsReplies, up_text, IsNotUpgraded};

use crate::fault::ReplayFault;
use crate::script_run::run;
use crate::script_stage::ScriptStage;
use fj_streams::{InMemory, Sink, Source};
use std::alloc::Global;

/// Reads a script of version 1 and writes it as version 2: `fj 2`, the heading, and each step with names for its tasks.
///
/// Task number T gets the name `tT`, and a line that accepts a task names it by the number of tasks accepted before, even if it is
/// refused. So the steps are made, on a machine of their own.
///
/// The output is `up b` of the bytes `b` that were read; at `Memory` it is empty, at `Write` a prefix of `up b`. Faults are those of
/// [`replay`](crate::replay) of a script of version 1: a first line `fj 2` is `Line(1)`. At a faulty heading nothing is written, at
/// a later fault the lines before it. The writer is flushed before each further read.
pub fn upgrade<R: Source, W: Sink>(alloc: Global, r: &mut R, w: &mut W) -> Result<(), ReplayFault>
    ensures ok { OnOk result (Upgrades (R.remaining r.old) (R.remaining r.new) (W.contents w.old) (W.contents w.new)) }
    ensures fine { OnOk result (IsFine (R.calls r.old) (R.calls r.new) × IsFine (W.calls w.old) (W.calls w.new)) }
    ensures err { IfErr result (StopsUpgrade (seen R.remaining R.calls r.old r.new) (seen W.contents W.calls w.old w.new)) }
    ensures memory { result ≡ Err ReplayFault.Memory → Appends (W.contents w.old) (W.contents w.new) [] }
    // The replies to a script of version 1 stay the same, but each task number T in them becomes tT.
    ensures replies { (b : List ℕ) → is_titled (lines b) ≡ false → KeepsReplies b }
    // `up` is `fj 2`, the heading, and the line of each step.
    ensures lines { (b : List ℕ) → up b ≡ up_text (lines b) }
    // A script of version 2 is not written at all.
    ensures titled { (b : List ℕ) → is_titled (lines b) ≡ true → IsNotUpgraded b }
{
    run(alloc, ScriptStage::Old, r, w)
}

/// A script of version 1 in memory, as version 2. At a fault the lines before it are lost. It is `Line`, `Limits` or `Memory`: there is
/// no I/O that could fail.
pub fn upgraded(alloc: Global, script: &[u8]) -> Result<Vec<u8>, ReplayFault>
    ensures script { IfOk result (λ _. IsOldScript script.now) }
    ensures text { IfOk result (λ written. written.items ≡ up script.now) }
    ensures err { IfErr result (λ fault. (b : List ℕ) × (ahead now : Option (List ℕ)) × EndsUpgrade fault b (Some script.now) ahead (Some []) now) }
    ensures in_memory { IfErr result (λ fault. (fault ≢ ReplayFault.Read) × (fault ≢ ReplayFault.Write)) }
{
    let mut rest = InMemory::new(script);
    let mut written = Vec::new(alloc);
    match upgrade(alloc, &mut rest, &mut written) {
        Ok(()) => Ok(written),
        // A write to a vector fails only if out of memory.
        Err(ReplayFault::Write) => Err(ReplayFault::Memory),
        Err(fault) => Err(fault),
    }
}
