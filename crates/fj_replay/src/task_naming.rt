ghost use Rattle.std.specs.Prelude.{◌≡◌, ◌+◌, ◌≤◌, ◌++◌, ℕ, List, false, not, if◌then◌else◌, IfOk, IsOk, OnOk, OnErr, string_bytes, string_capacity, string_len};
ghost use Rattle.fj_lines.specs.Words.{Reads};
ghost use Rattle.fj_replay.specs.Namings.{is_named, with_name, replied_line, said_line};
ghost use Rattle.fj_replay.specs.declared.task_naming.TaskNaming.{TaskNaming};
ghost use Rattle.fj_replay.specs.Plays.{asked_in};

use crate::asked::Asked;
use crate::names::Names;
use crate::pushes::push_numbers;
use crate::replied::Replied;
use crate::task_told::task_told;
use fj_lines::{LineFault, Name, REPLY_ROOM, Reply, read_line2, read_step};
use fj_rules::{Limits, Said};
use std::alloc::AllocError;

/// How a script names its tasks.
#[derive(Drop)]
pub enum TaskNaming {
    /// By their numbers, as in version 1.
    Numbers,
    /// By names, as in version 2.
    Names(Names),
}

impl TaskNaming {
    /// Reads what a line asks for. `LineFault` where it is no line of this version.
    pub fn read(&self, line: &[u8]) -> Result<Asked, LineFault>
        ensures { Reads (asked_in self.now line.now) result }
    {
        match self {
            TaskNaming::Numbers => {
                let step = read_step(line)?;
                Ok(Asked::Step(step))
            }
            TaskNaming::Names(names) => {
                let line = read_line2(line)?;
                Ok(names.asked(line))
            }
        }
    }

    /// Gives the next task this name if it is free; otherwise answers false and changes nothing. An error only if the name is free and memory
    /// runs out.
    pub fn add(&mut self, name: Name) -> Result<bool, AllocError>
        ensures free { IfOk result (λ free. free ≡ not (is_named self.old name)) }
        ensures names { OnOk result (self.new ≡ (if is_named self.old name then self.old else with_name self.old name)) }
        ensures err { OnErr result (is_named self.old name ≡ false) }
    {
        match self {
            TaskNaming::Numbers => Ok(true),
            TaskNaming::Names(names) => names.add(name),
        }
    }

    /// Removes the last name.
    pub fn take_back(&mut self)
        ensures { (before : TaskNaming) (name : List ℕ) → self.old ≡ with_name before name → self.new ≡ before }
    {
        match self {
            TaskNaming::Numbers => {}
            TaskNaming::Names(names) => names.take_back(),
        }
    }

    /// Appends the line of a reply, with its line feed. An error comes where the text can't grow, never where it has
    /// [`REPLY_ROOM`](fj_lines::REPLY_ROOM) left; then a part of the line may be appended.
    #[tactic(auto, unfolding(crate::specs::Namings::replied_line))]
    pub fn push_line(
        &self,
        reply: Replied,
        limits: &Limits,
        text: &mut String,
    ) -> Result<(), AllocError>
        ensures line { OnOk result (string_bytes text.new ≡ string_bytes text.old ++ replied_line self.now limits.now reply) }
        ensures fits { string_len text.old + REPLY_ROOM ≤ string_capacity text.old → IsOk result }
        ensures room { string_capacity text.old ≤ string_capacity text.new }
    {
        match reply {
            Replied::Said(said) => self.push_said(said, limits, text),
            Replied::NameTaken => text.push_str("refused 16\n"),
            Replied::Sealed(epoch, events) => push_numbers(text, "sealed", epoch, events),
            Replied::Epoch(epoch, events) => push_numbers(text, "epoch", epoch, events),
        }
    }

    fn push_said(&self, said: Said, limits: &Limits, text: &mut String) -> Result<(), AllocError>
        ensures line { OnOk result (string_bytes text.new ≡ string_bytes text.old ++ said_line self.now limits.now said) }
        ensures fits { string_len text.old + REPLY_ROOM ≤ string_capacity text.old → IsOk result }
        ensures room { string_capacity text.old ≤ string_capacity text.new }
    {
        match self {
            TaskNaming::Numbers => Reply::new(said, limits).push_line(text),
            TaskNaming::Names(names) => match task_told(&said) {
                Some((verb, t)) => names.push_told(verb, t, text),
                None => Reply::new(said, limits).push_line(text),
            },
        }
    }
}
