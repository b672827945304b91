ghost use Rattle.std.specs.Prelude.{◌≡◌, ◌&&◌, true, false};
ghost use Rattle.fj_rules.specs.declared.step.Step.TheVariants.{Add, QuietRoot, Fault, Cancel, State};
ghost use Rattle.fj_rules.specs.Statuses.{status, is_undone};
ghost use Rattle.fj_rules.specs.Tasks.{is_kept};
ghost use Rattle.fj_body.specs.Asking.{is_calm, Makes, Adds, QuietsRoot, Settles, Shows};

use crate::due::due_after;
use crate::moves::make;
use crate::release::release_due;
use crate::store::Store;
use fj_body::{Body, Heard, Told};
use fj_rules::{Said, Serial, Step, WorkerId};

impl<B: Body> Store<B> {
    /// Makes a step that hands out no task and ends no body. Drops the stored bodies of the tasks that become gone by it.
    pub(crate) fn ask(&mut self, asked: &Step) -> Said
        requires { is_calm asked.now ≡ true }
        ensures { Makes self.old asked.now result self.new }
    {
        match make(&mut self.machine, &mut self.bodies, asked) {
            Said::Refused(refusal) => Said::Refused(refusal),
            said => {
                let due = due_after(asked);
                release_due(&mut self.machine, &mut self.taken, &mut self.stuck, due);
                said
            }
        }
    }

    /// The running task of a worker adds to a pending count: `CountedCompleter.addToPendingCount`. It hears the new count.
    pub(crate) fn add(&mut self, w: WorkerId, c: Serial, n: u32) -> Told<B>
        requires { self.old.stuck ≡ false }
        ensures { Adds self.old (Add w c n) result self.new }
    {
        match self.ask(&Step::Add { w, c, n }) {
            Said::Count(n) => Told::Hear(Heard::Count(n)),
            Said::Refused(refusal) => Told::Hear(Heard::Refused(refusal)),
            _ => unreachable!(),
        }
    }

    /// Makes the root of a task's path normal: `CountedCompleter.quietlyCompleteRoot`. It hears `Went`, also if the root was done before.
    pub(crate) fn quiet_root(&mut self, w: WorkerId, t: Serial) -> Told<B>
        requires { self.old.stuck ≡ false }
        ensures { QuietsRoot self.old (QuietRoot w t) result self.new }
    {
        match self.ask(&Step::QuietRoot { w, t }) {
            Said::Refused(refusal) => Told::Hear(Heard::Refused(refusal)),
            _ => Told::Hear(Heard::Went),
        }
    }

    /// Cancels a task: `ForkJoinTask.cancel`. It hears `Yes` if the task is cancelled now or was before, else `No`.
    pub fn cancel(&mut self, t: Serial) -> Told<B>
        ensures { Settles self.old (Cancel t) result self.new }
    {
        if self.stuck {
            return Told::Stuck(None);
        }
        match self.ask(&Step::Cancel { t }) {
            Said::Yes => Told::Hear(Heard::Yes),
            Said::No => Told::Hear(Heard::No),
            Said::Refused(refusal) => Told::Hear(Heard::Refused(refusal)),
            _ => unreachable!(),
        }
    }

    /// Ends a task exceptionally, and each one to which the code is relayed: `ForkJoinTask.completeExceptionally`. It hears `Yes`, or `No` if
    /// the task was done before.
    pub(crate) fn fault(&mut self, t: Serial, code: u32) -> Told<B>
        requires { self.old.stuck ≡ false }
        ensures { Settles self.old (Fault t code) result self.new }
    {
        match self.ask(&Step::Fault { t, code }) {
            Said::Yes => Told::Hear(Heard::Yes),
            Said::No => Told::Hear(Heard::No),
            Said::Refused(refusal) => Told::Hear(Heard::Refused(refusal)),
            _ => unreachable!(),
        }
    }

    /// The place and the status of a task.
    pub(crate) fn state(&mut self, t: Serial) -> Told<B>
        requires { self.old.stuck ≡ false }
        ensures { Shows self.old (State t) result self.new }
    {
        match self.machine.step(&Step::State { t }) {
            Said::State(place, status) => Told::Hear(Heard::Is(place, status)),
            Said::Refused(refusal) => Told::Hear(Heard::Refused(refusal)),
            _ => unreachable!(),
        }
    }

    /// Whether a task is kept and undone: not `ForkJoinTask.isDone`. It also answers if the store is stuck.
    pub fn is_undone(&self, t: Serial) -> bool
        ensures { result ≡ is_kept self.now.past.events t && is_undone (status self.now.past.events t) }
    {
        match self.machine.status(t) {
            Some(status) => status.is_undone(),
            None => false,
        }
    }
}
