ghost use Rattle.std.specs.Prelude.{◌≡◌, Some, OnOk, OnErr, IfOk, IfErr};
ghost use Rattle.std.specs.Io.KnownBytes.{Appends};
ghost use Rattle.fj_rules.specs.Answers.{answer};
ghost use Rattle.fj_rules.specs.Pasts.{grown};
ghost use Rattle.fj_rules.specs.Tasks.{accepted};
ghost use Rattle.fj_lines.specs.Headings.{pool_in, start};
ghost use Rattle.fj_streams.specs.Calls.{HasFailed, IsFine};
ghost use Rattle.fj_streams.specs.Beginnings.{AppendsSome};
ghost use Rattle.fj_replay.specs.TaskNames.{named_line};
ghost use Rattle.fj_replay.specs.Stops.{IsHeadStop};

use crate::named_step::{STEP_ROOM, push_named};
use crate::opening::open;
use crate::script_stop::ScriptStop;
use crate::task_told::is_task;
use fj_machine::Machine;
use fj_rules::Step;
use fj_streams::{LineStop, Sink, write_all};
use std::alloc::Global;
use std::marker::Model;

/// Writes the steps of a script of version 1 as version 2. It makes them on a machine, to know how many tasks were accepted. Contracts
/// see the machine's past.
#[derive(Drop)]
pub struct Rewriter {
    machine: Machine,
    // how many tasks were accepted
    count: u64,
    // the last line, with room for any
    line: String,
}

impl Model for Rewriter {
    ghost use Rattle.fj_rules.specs.Pasts.{Past};
    ghost use Rattle.std.specs.Prelude.{◌≤◌, string_capacity};
    ghost use Rattle.fj_replay.specs.declared.named_step.TheConstants.{STEP_ROOM};
    ghost use Rattle.fj_replay.specs.Counted.{IsCounted};

    ghost Value = { Past };

    ghost view = { λ r. r.machine };

    ghost invariant = { λ r. record {
      counted : IsCounted r.machine r.count;
      room : STEP_ROOM ≤ string_capacity r.line;
    } };
}

impl Rewriter {
    /// A new machine by the heading. `Faulty` where it is no heading, `Limits` where a limit is out of its range, `Memory` where out of
    /// memory.
    pub fn open(alloc: Global, heading: &[u8]) -> Result<Rewriter, LineStop<ScriptStop>>
        ensures pool { IfOk result (λ r. pool_in heading.now ≡ Some r.pool) }
        ensures fresh { IfOk result (λ r. r ≡ start r.pool) }
        ensures err { IfErr result (IsHeadStop heading.now) }
    {
        let machine = open(alloc, heading)?;
        match String::with_capacity(alloc, STEP_ROOM) {
            Ok(line) => Ok(Rewriter {
                machine,
                count: 0,
                line,
            }),
            Err(_) => {
                // Explicit drops are proved faster.
                drop(machine);
                Err(LineStop::Memory)
            }
        }
    }

    /// Writes a step's line of version 2, and makes the step. At `Write` only a part of the line, or nothing, was written.
    pub fn rewrite<W: Sink>(&mut self, asked: &Step, w: &mut W) -> Result<(), LineStop<ScriptStop>>
        ensures past { OnOk result (self.new ≡ grown self.old (answer self.old asked.now).1) }
        ensures written { OnOk result (Appends (W.contents w.old) (W.contents w.new) (named_line (accepted self.old.events) asked.now)) }
        ensures err { OnErr result (result ≡ Err LineStop.Write) }
        ensures fine { OnOk result (IsFine (W.calls w.old) (W.calls w.new)) }
        ensures told { OnErr result (HasFailed (W.calls w.old) (W.calls w.new)) }
        ensures some { OnErr result (AppendsSome (W.contents w.old) (W.contents w.new) (named_line (accepted self.old.events) asked.now)) }
    {
        match self.write(asked, w) {
            Ok(()) => {
                self.make(asked);
                Ok(())
            }
            Err(fault) => Err(fault),
        }
    }

    /// Writes a step's line of version 2, as `rewrite`.
    fn write<W: Sink>(&mut self, asked: &Step, w: &mut W) -> Result<(), LineStop<ScriptStop>>
        ensures same { self.new ≡ self.old }
        ensures written { OnOk result (Appends (W.contents w.old) (W.contents w.new) (named_line (accepted self.old.events) asked.now)) }
        ensures err { OnErr result (result ≡ Err LineStop.Write) }
        ensures fine { OnOk result (IsFine (W.calls w.old) (W.calls w.new)) }
        ensures told { OnErr result (HasFailed (W.calls w.old) (W.calls w.new)) }
        ensures some { OnErr result (AppendsSome (W.contents w.old) (W.contents w.new) (named_line (accepted self.old.events) asked.now)) }
    {
        self.line.clear();
        match push_named(asked, self.count, &mut self.line) {
            Ok(()) => write_all(w, self.line.as_bytes()),
            // There is room for each line.
            Err(_) => unreachable!(),
        }
    }

    /// Makes a step, and counts the task that it accepts.
    fn make(&mut self, asked: &Step)
        ensures { self.new ≡ grown self.old (answer self.old asked.now).1 }
    {
        // For the proof: there are no more tasks than a history has events.
        let _limits = self.machine.limits();
        let _history = self.machine.history();
        let said = self.machine.step(asked);
        if is_task(&said) {
            self.count += 1;
        }
    }
}
