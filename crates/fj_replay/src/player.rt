ghost use Rattle.std.specs.Prelude.{◌≡◌, Some, OnOk, OnErr, IfOk, IfErr};
ghost use Rattle.fj_lines.specs.Words.{Reads};
ghost use Rattle.fj_lines.specs.Headings.{pool_in, start};
ghost use Rattle.fj_rules.specs.Epochs.{IsPast};
ghost use Rattle.fj_rules.specs.Pasts.{present};
ghost use Rattle.fj_replay.specs.Plays.{asked_in, play_after, replied};
ghost use Rattle.fj_replay.specs.Starving.{TakesMemory};
ghost use Rattle.fj_replay.specs.Stops.{IsHeadStop};

use crate::asked::Asked;
use crate::opening::open;
use crate::replied::Replied;
use crate::script_stop::ScriptStop;
use crate::task_naming::TaskNaming;
use crate::task_told::is_task;
use fj_lines::{LineFault, Name};
use fj_machine::Machine;
use fj_rules::{Event, Limits, OutOfMemory, Refusal, Said, Step};
use fj_streams::LineStop;
use std::alloc::Global;
use std::marker::Model;

/// A machine, and the naming of its tasks: the state of a script behind its heading. Contracts see the machine's past and the naming.
#[derive(Drop)]
pub struct Player {
    machine: Machine,
    naming: TaskNaming,
}

impl Model for Player {
    ghost use Rattle.fj_replay.specs.Plays.{Play};

    ghost Value = { Play };

    ghost view = { λ p. record { past = p.machine; naming = p.naming } };
}

impl Player {
    /// A new machine by the heading. `Faulty` where it is no heading, `Limits` where a limit is out of its range, `Memory` where out of
    /// memory.
    pub fn open(
        alloc: Global,
        heading: &[u8],
        naming: TaskNaming,
    ) -> Result<Player, LineStop<ScriptStop>>
        ensures pool { IfOk result (λ p. pool_in heading.now ≡ Some p.past.pool) }
        ensures fresh { IfOk result (λ p. p.past ≡ start p.past.pool) }
        ensures naming { IfOk result (λ p. p.naming ≡ naming) }
        ensures err { IfErr result (IsHeadStop heading.now) }
    {
        let machine = open(alloc, heading)?;
        Ok(Player { machine, naming })
    }

    /// The machine, to ask where its tasks are.
    pub fn machine(&self) -> &Machine
        ensures { result.now ≡ self.now.past }
    {
        &self.machine
    }

    /// The events since the last seal, the oldest first. What has happened is the history of a run.
    pub fn history(&self) -> &[Event]
        ensures events { result.now ≡ present self.now.past }
        ensures run { IsPast self.now.past }
    {
        self.machine.history()
    }

    /// The limits of its heading.
    pub fn limits(&self) -> Limits
        ensures { result ≡ self.now.past.pool.limits }
    {
        self.machine.limits()
    }

    /// The naming of its tasks.
    pub fn naming(&self) -> &TaskNaming
        ensures { result.now ≡ self.now.naming }
    {
        &self.naming
    }

    /// Reads what a line asks for. `LineFault` where it is no line of this version.
    pub fn read(&self, line: &[u8]) -> Result<Asked, LineFault>
        ensures { Reads (asked_in self.now.naming line.now) result }
    {
        self.naming.read(line)
    }

    /// Does what is asked for, and answers the reply. Out of memory where a new name can't be stored (then no step is made), or in a seal that
    /// nothing else refuses.
    pub fn make(&mut self, alloc: Global, asked: Asked) -> Result<Replied, OutOfMemory>
        ensures play { OnOk result (self.new ≡ play_after self.old asked) }
        ensures reply { IfOk result (λ reply. reply ≡ replied self.old asked) }
        ensures pool { self.new.past.pool ≡ self.old.past.pool }
        ensures err { OnErr result (TakesMemory self.old asked) }
    {
        match asked {
            Asked::Step(step) => Ok(Replied::Said(self.machine.step(&step))),
            Asked::Accept(name, step) => self.accept(name, &step),
            Asked::Seal => self.seal(alloc),
            Asked::Epoch => {
                let events = self.machine.history().len() as u64;
                Ok(Replied::Epoch(self.machine.epoch(), events))
            }
        }
    }

    /// A step whose task is to have this name. The name is added before the step is made, and removed if no task was accepted.
    fn accept(&mut self, name: Name, step: &Step) -> Result<Replied, OutOfMemory>
        ensures play { OnOk result (self.new ≡ play_after self.old (Asked.Accept name step.now)) }
        ensures reply { IfOk result (λ reply. reply ≡ replied self.old (Asked.Accept name step.now)) }
        ensures pool { self.new.past.pool ≡ self.old.past.pool }
        ensures err { OnErr result (TakesMemory self.old (Asked.Accept name step.now)) }
    {
        if !self.naming.add(name)? {
            return Ok(Replied::NameTaken);
        }
        let said = self.machine.step(step);
        if !is_task(&said) {
            self.naming.take_back();
        }
        Ok(Replied::Said(said))
    }

    /// Seals the machine's history.
    fn seal(&mut self, alloc: Global) -> Result<Replied, OutOfMemory>
        ensures play { OnOk result (self.new ≡ play_after self.old Asked.Seal) }
        ensures reply { IfOk result (λ reply. reply ≡ replied self.old Asked.Seal) }
        ensures pool { self.new.past.pool ≡ self.old.past.pool }
        ensures err { OnErr result (TakesMemory self.old Asked.Seal) }
    {
        let events = self.machine.history().len() as u64;
        let epoch = self.machine.epoch();
        match self.machine.seal(alloc) {
            Ok(_) => Ok(Replied::Sealed(epoch, events)),
            Err(Refusal::OutOfMemory) => Err(OutOfMemory),
            Err(refusal) => Ok(Replied::Said(Said::Refused(refusal))),
        }
    }
}
