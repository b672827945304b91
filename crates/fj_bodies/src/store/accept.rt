ghost use Rattle.std.specs.Prelude.{◌≡◌, None, false};
ghost use Rattle.fj_rules.specs.Runs.{Steps};
ghost use Rattle.fj_rules.specs.Answers.{refusal_of};
ghost use Rattle.fj_rules.specs.declared.step.Step.TheVariants.{Submit, Fork, Trigger};
ghost use Rattle.fj_rules.specs.declared.said.Said.TheVariants.{Task};
ghost use Rattle.fj_slots.specs.Shelves.{entries, with_entry};
ghost use Rattle.fj_body.specs.Accepting.{Accepts};

use crate::store::Store;
use fj_body::{Body, Heard, Told};
use fj_rules::{Kind, Refusal, Said, Serial, Step, SubId, SubmittedKind, WorkerId};

impl<B: Body> Store<B> {
    /// The running task of a worker forks: `ForkJoinTask.fork`. It hears the number of the new task, or gets the body back with the refusal.
    #[inline(always)]
    pub(crate) fn fork(&mut self, w: WorkerId, kind: &Kind, body: B) -> Told<B>
        requires { self.old.stuck ≡ false }
        ensures { Accepts self.old (Fork w kind.now) body result self.new }
    {
        match self.machine.step(&Step::Fork { w, kind: *kind }) {
            Said::Task(t) => {
                self.bodies.put(t, body);
                Told::Hear(Heard::Task(t))
            }
            Said::Refused(refusal) => Told::Hear(Heard::Handed(body, refusal)),
            _ => unreachable!(),
        }
    }

    /// The running task makes a trigger, which is open at once. The answers are those of `fork`.
    pub(crate) fn trigger(&mut self, w: WorkerId, count: u32, body: B) -> Told<B>
        requires { self.old.stuck ≡ false }
        ensures { Accepts self.old (Trigger w count) body result self.new }
    {
        match self.machine.step(&Step::Trigger { w, count }) {
            Said::Task(t) => {
                self.bodies.put(t, body);
                Told::Hear(Heard::Task(t))
            }
            Said::Refused(refusal) => Told::Hear(Heard::Handed(body, refusal)),
            _ => unreachable!(),
        }
    }

    /// Why a submission would be refused now, if it would be.
    pub fn submit_refusal(&self, s: SubId, kind: &SubmittedKind) -> Option<Refusal>
        ensures { result ≡ refusal_of self.now.past (Submit s kind.now) }
    {
        self.machine.submit_refusal(s, kind)
    }

    /// A submitter submits a task: its number. Precondition: `submit_refusal` is none.
    pub fn submit(&mut self, s: SubId, kind: &SubmittedKind, body: B) -> Serial
        requires { refusal_of self.old.past (Submit s kind.now) ≡ None }
        ensures step { Steps self.old.past (Submit s kind.now) (Task result) self.new.past }
        ensures body { entries self.new.bodies ≡ with_entry (entries self.old.bodies) result body }
        ensures others { self.new ≡ record self.old { past = self.new.past; bodies = self.new.bodies } }
    {
        match self.machine.step(&Step::Submit { s, kind: *kind }) {
            Said::Task(t) => {
                self.bodies.put(t, body);
                t
            }
            _ => unreachable!(),
        }
    }
}
