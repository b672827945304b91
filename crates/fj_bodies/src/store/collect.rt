ghost use Rattle.std.specs.Prelude.{◌≡◌, true, false};
ghost use Rattle.fj_rules.specs.Lists.{is_in};
ghost use Rattle.fj_rules.specs.Tasks.{is_kept};
ghost use Rattle.fj_slots.specs.Shelves.{entries};
ghost use Rattle.fj_body.specs.Stores.{HasResults};
ghost use Rattle.fj_body.specs.Turns.{ToldRight};
ghost use Rattle.fj_body.specs.Results.{LetsGo, MarksAndReleases, TakesAndReleases, TakesResult, Collects};

use crate::due::Due;
use crate::places::is_gone;
use crate::plain::release_plain;
use crate::release::release_due;
use crate::store::Store;
use fj_body::{Body, Heard, KeptResult, Outcome, Told, told_outcome};
use fj_rules::{Refusal, Serial};

impl<B: Body> Store<B> {
    /// Takes out a task's result, if it has one, and releases the task: a plain one mostly at once, without a mark, others as soon as they can
    /// be. Preconditions: the task is kept, and was not taken before.
    #[inline(always)]
    pub(crate) fn take_out(&mut self, t: Serial) -> Option<KeptResult<B>>
        requires kept { is_kept self.old.past.events t ≡ true }
        requires free { is_in t self.old.taken ≡ false }
        ensures result { result ≡ entries self.old.results t }
        ensures releases { MarksAndReleases self.old t self.new }
    {
        let kept = self.results.take(t);
        if release_plain(&mut self.machine, !self.stuck, t) {
            return kept;
        }
        self.taken.push(t);
        let due = Due::One(t);
        release_due(&mut self.machine, &mut self.taken, &mut self.stuck, due);
        kept
    }

    /// Takes a result out, and releases its task as soon as it can be.
    #[inline(always)]
    pub(crate) fn take_and_release(&mut self, t: Serial) -> Option<KeptResult<B>>
        ensures takes { TakesAndReleases self.old t result self.new }
        ensures complete { HasResults self.old.past (entries self.old.results) self.old.taken }
    {
        if !self.results.has(t) {
            return None;
        }
        self.take_out(t)
    }

    /// A body takes the result of a gone task. `Unknown` if the task is not kept, `NotDone` if it is not gone or has no result.
    ///
    /// The task is released as soon as it can be.
    pub(crate) fn take(&mut self, t: Serial) -> Told<B>
        requires free { self.old.stuck ≡ false }
        ensures takes { TakesResult self.old t result self.new }
        ensures right { ToldRight B.right result }
    {
        match self.machine.place(t) {
            Some(place) => {
                if !is_gone(place) {
                    return Told::Hear(Heard::Refused(Refusal::NotDone));
                }
                match self.take_and_release(t) {
                    Some(kept) => {
                        let (key, out) = kept.into_parts();
                        Told::Hear(Heard::Got(key, out))
                    }
                    None => Told::Hear(Heard::Refused(Refusal::NotDone)),
                }
            }
            None => Told::Hear(Heard::Refused(Refusal::Unknown)),
        }
    }

    /// A body gives up a task's result and outcome, for all callers: the task is released as soon as it can be, now or later, and its result
    /// is dropped. `Unknown` if its outcome or result was taken before, or it is not kept.
    pub(crate) fn release(&mut self, t: Serial) -> Told<B>
        requires { self.old.stuck ≡ false }
        ensures { LetsGo self.old t result self.new }
    {
        if self.taken.has(t) {
            return Told::Hear(Heard::Refused(Refusal::Unknown));
        }
        match self.machine.status(t) {
            Some(_) => {
                let _unneeded = self.take_out(t);
                Told::Hear(Heard::Went)
            }
            None => Told::Hear(Heard::Refused(Refusal::Unknown)),
        }
    }

    /// Takes out the outcome of a task, which is released as soon as it can be.
    ///
    /// None while it is undone. `Unknown` if its outcome or result was taken before, or it is not kept.
    pub fn collect(&mut self, t: Serial) -> Option<Result<Outcome<B>, Refusal>>
        ensures { Collects self.old t result self.new }
    {
        if self.taken.has(t) {
            return Some(Err(Refusal::Unknown));
        }
        match self.machine.status(t) {
            Some(status) => {
                if status.is_undone() {
                    return None;
                }
                let kept = self.take_out(t);
                Some(Ok(told_outcome(status, kept)))
            }
            None => Some(Err(Refusal::Unknown)),
        }
    }
}
