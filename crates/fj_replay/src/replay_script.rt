//! The replay of a script, from a reader to a writer or in memory.
ghost use Rattle.std.specs.Prelude.{◌≡◌, ◌≢◌, ℕ, OnOk, IfOk, IfErr, List, [], Option, Some, false, true};
ghost use Rattle.fj_streams.specs.Calls.{IsFine};
ghost use Rattle.fj_replay.specs.Starving.{Starves};
ghost use Rattle.fj_replay.specs.Tells.{Stops, seen};
ghost use Rattle.fj_streams.specs.Cuts.{lines};
ghost use Rattle.fj_replay.specs.Scripts.{AreRun, KeepsNames, MakesMoves, NamesTasks, is_titled, numbered_text, text};
ghost use Rattle.fj_replay.specs.NamedText.{named_text};
ghost use Rattle.fj_replay.specs.Faults.{IsScript, Replays, Ends};
ghost use Rattle.fj_rules.specs.Bounds.{Pool};
ghost use Rattle.fj_rules.specs.declared.step.Step.{Step};

use crate::fault::ReplayFault;
use crate::script_run::run;
use crate::script_stage::ScriptStage;
use fj_streams::{InMemory, Sink, Source};
use std::alloc::Global;

/// Reads a script, makes its steps and writes the replies.
///
/// The output is `text b` of the bytes `b` that were read; at `Memory` and `Write` it is a prefix of `text b`. `Memory` comes before the first
/// reply, or in version 2 at a line that gives a task a new name, or seals. `Read` and `Write` come exactly where the reader or the
/// writer failed. A reply is handed to the writer before the next line is parsed, so all replies before a
/// fault are written. The writer is flushed before each further read, so a caller that sends one line at a time gets each reply; a
/// failed flush is `Write`. At `Ok` all was flushed; at a fault the last replies may not be. An interrupted read, write or flush is
/// retried.
pub fn replay<R: Source, W: Sink>(alloc: Global, r: &mut R, w: &mut W) -> Result<(), ReplayFault>
    ensures ok { OnOk result (Replays (R.remaining r.old) (R.remaining r.new) (W.contents w.old) (W.contents w.new)) }
    ensures fine { OnOk result (IsFine (R.calls r.old) (R.calls r.new) × IsFine (W.calls w.old) (W.calls w.new)) }
    ensures err { IfErr result (Stops (seen R.remaining R.calls r.old r.new) (seen W.contents W.calls w.old w.new)) }
    // Memory runs out before the first reply, in version 2 also at a line that names a task anew, or seals.
    ensures memory { result ≡ Err ReplayFault.Memory → Starves (R.remaining r.old) (R.remaining r.new) (W.contents w.old) (W.contents w.new) }
    // For version 1 the text is the lines of the replies to the steps, and these are a run.
    ensures numbered { (b : List ℕ) → is_titled (lines b) ≡ false → text b ≡ numbered_text (lines b) }
    // For version 2 it is the lines of the replies to the steps and seals, each task by the name that was given to it.
    ensures named { (b : List ℕ) → is_titled (lines b) ≡ true → text b ≡ named_text (lines b) }
    ensures runs { (p : Pool) (asked : List Step) → AreRun p asked }
    // For both versions: the moves that lines ask for have the answers in the replies.
    ensures moves { (ls : List (List ℕ)) → MakesMoves ls }
    // For version 2: each name means one task, and a name of no task a number that no task has.
    ensures names { (b : List ℕ) → NamesTasks b }
    // It is the task that was accepted under the name.
    ensures given { (b : List ℕ) → KeepsNames b }
{
    run(alloc, ScriptStage::Start, r, w)
}

/// The replies to a script in memory. At a fault the replies before it are lost. It is `Line`, `Limits` or `Memory`: there is no I/O
/// that could fail.
pub fn replayed(alloc: Global, script: &[u8]) -> Result<Vec<u8>, ReplayFault>
    ensures script { IfOk result (λ _. IsScript script.now) }
    ensures text { IfOk result (λ replies. replies.items ≡ text script.now) }
    ensures err { IfErr result (λ fault. (b : List ℕ) × (ahead now : Option (List ℕ)) × Ends fault b (Some script.now) ahead (Some []) now) }
    ensures in_memory { IfErr result (λ fault. (fault ≢ ReplayFault.Read) × (fault ≢ ReplayFault.Write)) }
{
    let mut rest = InMemory::new(script);
    let mut replies = Vec::new(alloc);
    match replay(alloc, &mut rest, &mut replies) {
        Ok(()) => Ok(replies),
        // A write to a vector fails only if out of memory.
        Err(ReplayFault::Write) => Err(ReplayFault::Memory),
        Err(fault) => Err(fault),
    }
}
