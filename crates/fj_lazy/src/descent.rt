ghost use Rattle.std.specs.Prelude.{◌≡◌, ◌+◌, ◌<◌, ◌≤◌, ◌++◌, [], Some, IfOk, IfErr, IfSome, IfNone, vec_len, vec_capacity};
ghost use Rattle.std.specs.Option.{option_to_list};
ghost use Rattle.fj_lazy.specs.declared.descent.TheConstants.{LEVELS};
ghost use Rattle.fj_lazy.specs.PartsAside.{StopsAt, branches, inside, beside, deep_weight, weigh, weight};

use crate::part::{DescentEnd, Inner};
use crate::signals::Signals;
use fj_jobs::Divide;
use std::alloc::{AllocError, Global};
use std::mem;

/// How many levels of splits are computed on the thread's stack. A job of 2^32 blocks has 32.
pub const LEVELS: u32 = 64;

/// Computes a job on the thread's stack, as `compute` does, but checks before each leaf what the bodies of the job share.
#[derive(Drop)]
pub struct Descent<'s, J: Divide> {
    signals: &'s Signals,
    /// The place of its body among those of the job.
    place: u64,
    /// The parts around the place where it stopped, the innermost first.
    around: Vec<Inner<J>>,
    /// Where it stopped.
    stop: Option<DescentEnd<J>>,
    ghost room: { LEVELS ≤ vec_capacity around },
}

impl<'s, J: Divide> Descent<'s, J> {
    /// A descent by a body at this place, before it begins. `AllocError` where out of memory.
    pub fn new(
        alloc: Global,
        place: u64,
        signals: &'s Signals,
    ) -> Result<Descent<'s, J>, AllocError> {
        let around = Vec::with_capacity(alloc, LEVELS as usize)?;
        Ok(Descent {
            signals,
            place,
            around,
            stop: None,
        })
    }

    /// What the bodies of the job share.
    pub fn signals(&self) -> &'s Signals {
        self.signals
    }

    /// Computes a job. `Err` says where it stopped; the parts around that place are put aside.
    pub fn run(&mut self, job: J) -> Result<J::Out, DescentEnd<J>>
        ensures value { IfOk result (λ v. v ≡ J.value (J.key_of job)) }
        ensures stop { IfErr result (λ s. StopsAt J.key_of J.value J.leaf_of J.combined self.new.around.items (J.value (J.key_of job)) (Some s)) }
        ensures weight { IfErr result (λ s. weigh (weight J.size) self.new.around.items < branches (J.size job)) }
        ensures deep { IfErr result (λ s. weigh (weight J.size) self.new.around.items + deep_weight J.size (Some s) < branches (J.size job)) }
    {
        self.around.clear();
        match self.descend(job, LEVELS) {
            Some(value) => Ok(value),
            None => match mem::replace(&mut self.stop, None) {
                Some(stop) => Err(stop),
                None => unreachable!(),
            },
        }
    }

    /// The same by `levels` splits at most. None where it stops. Preconditions: nothing is put aside; `levels` is at most `LEVELS`.
    fn descend(&mut self, job: J, levels: u32) -> Option<J::Out>
        requires nothing { self.old.around.items ≡ [] }
        requires levels { levels ≤ LEVELS }
        ensures value { IfSome result (λ v. v ≡ J.value (J.key_of job)) }
        ensures nothing { IfSome result (λ v. self.new.around.items ≡ []) }
        ensures stop { IfNone result (StopsAt J.key_of J.value J.leaf_of J.combined self.new.around.items (J.value (J.key_of job)) self.new.stop) }
        ensures weight { IfNone result (weigh (weight J.size) self.new.around.items + deep_weight J.size self.new.stop ≤ branches (J.size job)) }
        ensures lighter { IfNone result (0 < levels → weigh (weight J.size) self.new.around.items + deep_weight J.size self.new.stop < branches (J.size job)) }
        ensures levels { vec_len self.new.around ≤ levels }
    {
        if levels == 0 {
            self.stop = Some(DescentEnd::Deep(job));
            return None;
        }
        match job.split() {
            Ok((left, right)) => {
                let Some(value) = self.descend(left, levels - 1) else {
                    self.around.push_reserved(Inner::Pending(right));
                    return None;
                };
                if J::is_final(&value) {
                    return Some(value);
                }
                let Some(after) = self.descend(right, levels - 1) else {
                    self.around.push_reserved(Inner::Done(value));
                    return None;
                };
                Some(J::combine(value, after))
            }
            Err(leaf) => {
                if self.signals.call(self.place) {
                    self.stop = Some(DescentEnd::Leaf(leaf));
                    return None;
                }
                Some(leaf.leaf())
            }
        }
    }

    /// How many parts are put aside.
    pub fn len(&self) -> usize
        ensures { result ≡ vec_len self.now.around }
    {
        self.around.len()
    }

    /// Takes out the outermost part that is put aside. None where there is none.
    pub fn pop(&mut self) -> Option<Inner<J>>
        ensures items { self.old.around.items ≡ self.new.around.items ++ option_to_list result }
        ensures none { IfNone result (self.old.around.items ≡ []) }
        ensures fewer { IfSome result (λ p. vec_len self.new.around < vec_len self.old.around) }
    {
        self.around.pop()
    }
}
