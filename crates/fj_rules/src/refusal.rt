use std::fmt::{self, Display, Formatter, Write};
use thiserror::Error;

/// Why a call was refused. A refused call changes nothing but two flags: a submitter records that it got `Closed`, a pool that it is stuck.
///
/// Where several apply, a step reports the first in this order: `NoSuch`, `NotIdle`, `NotRunning`, `Unknown`, `NotCompleter`,
/// `NotDone`, `OwnStack`, `Closed`, `CountTooLarge`, `TooManyTasks`, `LogFull`.
#[derive(Clone, Copy, Debug, PartialEq, Error)]
pub enum Refusal {
    /// 1: nothing more is accepted.
    Closed,
    /// 2: as many tasks are kept as the limit allows.
    TooManyTasks,
    /// 3: the events of the step do not fit into the history.
    LogFull,
    /// 4: there is no such submitter or worker.
    NoSuch,
    /// 5: the task was never accepted, or was released.
    Unknown,
    /// 6: the worker runs no task, or has no completion action in its hand.
    NotRunning,
    /// 7: the task to join is undone and on the worker's own stack.
    OwnStack,
    /// 8: the task is of the wrong kind for this step.
    NotCompleter,
    /// 9: the task is not gone, or a kept task names it as its parent.
    NotDone,
    /// 10: a pending count would pass 65,535.
    CountTooLarge,
    /// 11: the lane has taken as many tasks as its capacity.
    LaneSpent,
    /// 12: out of memory.
    OutOfMemory,
    /// 13: a limit is out of its range.
    BadLimits,
    /// 14: the worker is not idle, or has a completion action in its hand.
    NotIdle,
}

impl Refusal {
    ghost use Rattle.std.specs.Prelude.{◌≡◌};
    ghost use Rattle.fj_rules.specs.Refusals.{refusal_number};

    /// The number that a reply prints for this refusal, 1 to 14.
    pub fn number(self) -> u32
        ensures { result ≡ refusal_number self }
    {
        match self {
            Refusal::Closed => 1,
            Refusal::TooManyTasks => 2,
            Refusal::LogFull => 3,
            Refusal::NoSuch => 4,
            Refusal::Unknown => 5,
            Refusal::NotRunning => 6,
            Refusal::OwnStack => 7,
            Refusal::NotCompleter => 8,
            Refusal::NotDone => 9,
            Refusal::CountTooLarge => 10,
            Refusal::LaneSpent => 11,
            Refusal::OutOfMemory => 12,
            Refusal::BadLimits => 13,
            Refusal::NotIdle => 14,
        }
    }

    /// Why, in words.
    fn text(self) -> &'static str {
        match self {
            Refusal::Closed => "nothing more is accepted",
            Refusal::TooManyTasks => "as many tasks are kept as the limit allows",
            Refusal::LogFull => "the events of the step do not fit into the history",
            Refusal::NoSuch => "there is no such submitter or worker",
            Refusal::Unknown => "the task was never accepted, or was released",
            Refusal::NotRunning => "the worker runs nothing",
            Refusal::OwnStack => "the task is on the worker's own stack",
            Refusal::NotCompleter => "the task is of the wrong kind",
            Refusal::NotDone => "the task is still needed",
            Refusal::CountTooLarge => "a pending count would pass 65535",
            Refusal::LaneSpent => "the lane has taken as many tasks as its capacity",
            Refusal::OutOfMemory => "out of memory",
            Refusal::BadLimits => "a limit is out of its range",
            Refusal::NotIdle => "the worker is not idle",
        }
    }
}

// By hand: a derived one, with a call in each arm, is proved ten times as slowly.
impl Display for Refusal {
    fn fmt<W: Write>(&self, f: &mut Formatter<W>) -> fmt::Result {
        f.write_str(self.text())
    }
}
