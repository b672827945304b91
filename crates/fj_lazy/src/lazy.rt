ghost use Rattle.std.specs.Prelude.{◌≡◌, ℕ, ◌+◌, ◌*◌, ◌<◌, ◌≤◌, ◌++◌, ◌∷◌, [], Option, None, IfOk, IfErr, IfSome, true, vec_len, vec_capacity};
ghost use Rattle.std.specs.VecDeque.{deque_len, deque_capacity};
ghost use Rattle.fj_rules.specs.Refusals.{refusal_number};
ghost use Rattle.fj_lazy.specs.PartsAside.{around, beside, branches, forked_in, outside, weigh, weight, whole};
ghost use Rattle.fj_lazy.specs.Splits.{Gives, HasRoom, turns_left, turns_of, turns_to_leave};
ghost use Rattle.fj_lazy.specs.Asks.{AsksOn, HoldsNothing};
ghost use Rattle.fj_lazy.specs.Failures.{Leaves};
ghost use Rattle.fj_lazy.specs.Steps.{HasNext};

use crate::descent::Descent;
use crate::part::{Climb, DescentEnd, LazyStage};
use crate::parts_aside::PartsAside;
use crate::signals::Signals;
use crate::span::Span;
use fj_body::Ask;
use fj_jobs::Divide;
use fj_rules::{Kind, Refusal, WorkerId};
use std::alloc::{AllocError, Global};

mod turns;

/// A job as a body that splits lazily: in a turn it computes leaf after leaf, and where a worker asks for work before a leaf, it forks its
/// largest right half that nobody has begun. It is submitted as a plain task, with the key of its job.
#[derive(Drop)]
pub struct Lazy<'s, J: Divide> {
    key: J::Key,
    parts: PartsAside<J>,
    stage: LazyStage<J>,
    descent: Descent<'s, J>,
    span: Span,
    /// How many forks it may still ask for: at first more than any history has room for. It bounds the turns whatever is refused.
    forks: u32,
    ghost total: { ∥ Gives J.key_of J.value J.leaf_of J.combined parts.outer.items parts.inner.items stage (J.value key) ∥₁ },
    ghost room: { ∥ HasRoom stage ((vec_len parts.outer < vec_capacity parts.outer) × (deque_len parts.inner < deque_capacity parts.inner)) ∥₁ },
}

impl<'s, J: Divide> Lazy<'s, J> {
    /// A body for this job, before its first turn. It allocates all that a job of at most 64 levels needs. `AllocError` where out of
    /// memory.
    pub fn new(alloc: Global, job: J, signals: &'s Signals) -> Result<Lazy<'s, J>, AllocError>
        ensures { IfOk result (λ body. body.key ≡ J.key_of job) }
    {
        let parts = PartsAside::new(alloc)?;
        let descent = Descent::new(alloc, Span::ALL.first, signals)?;
        Ok(Lazy::at(job, Span::ALL, parts, descent))
    }

    /// The same at these places, in memory already allocated. Precondition: `parts` is empty.
    fn at(job: J, span: Span, parts: PartsAside<J>, descent: Descent<'s, J>) -> Lazy<'s, J>
        requires outer { parts.outer.items ≡ [] }
        requires inner { parts.inner.items ≡ [] }
        ensures { result.key ≡ J.key_of job }
    {
        Lazy {
            key: job.key(),
            parts,
            stage: LazyStage::Going(job),
            descent,
            span,
            forks: u32::MAX,
        }
    }

    /// A body for a half, at the right half of the places. The half as `Err` where out of memory.
    fn body_of(&mut self, half: J) -> Result<Lazy<'s, J>, J>
        ensures ok { IfOk result (λ body. body.key ≡ J.key_of half) }
        ensures err { IfErr result (λ j. j ≡ half) }
        ensures key { self.new.key ≡ self.old.key }
        ensures parts { self.new.parts ≡ self.old.parts }
        ensures stage { self.new.stage ≡ self.old.stage }
        ensures forks { self.new.forks ≡ self.old.forks }
    {
        let alloc = *self.parts.outer.allocator();
        let Ok(parts) = PartsAside::new(alloc) else {
            return Err(half);
        };
        let (left, right) = self.span.halves();
        let Ok(descent) = Descent::new(alloc, right.first, self.descent.signals()) else {
            return Err(half);
        };
        self.span = left;
        Ok(Lazy::at(half, right, parts, descent))
    }

    /// Releases what it forked, the last one first, and then fails with this code.
    fn leave(&mut self, code: u32) -> Ask<Lazy<'s, J>>
        ensures key { self.new.key ≡ self.old.key }
        ensures asks { AsksOn J.value self.new.key (turns_to_leave self.old.forks self.old.parts.outer.items) (turns_of self.new.forks self.new.parts.outer.items self.new.stage) (forked_in self.old.parts.outer.items) (forked_in self.new.parts.outer.items) result }
        ensures free { HoldsNothing self.new.parts.inner.items result }
        ensures leaves { Leaves code self.new.stage result }
    {
        self.stage = LazyStage::Leaving(code);
        match self.parts.last_forked() {
            Some(task) => Ask::Release(task),
            None => Ask::Fail(code),
        }
    }

    /// Leaves with the code of `OutOfMemory`.
    fn give_up(&mut self) -> Ask<Lazy<'s, J>>
        ensures key { self.new.key ≡ self.old.key }
        ensures asks { AsksOn J.value self.new.key (turns_left self.old.forks self.old.parts.outer.items) (turns_of self.new.forks self.new.parts.outer.items self.new.stage) (forked_in self.old.parts.outer.items) (forked_in self.new.parts.outer.items) result }
        ensures free { HoldsNothing self.new.parts.inner.items result }
        ensures leaves { Leaves (refusal_number Refusal.OutOfMemory) self.new.stage result }
    {
        self.leave(Refusal::OutOfMemory.number())
    }
}

impl<'s, J: Divide> Lazy<'s, J> {
    /// Combines a value with those beside it. The next job to compute, or what to ask. Precondition: with the parts, the value gives that
    /// of the whole.
    fn step_up(&mut self, value: J::Out) -> Result<J, Ask<Lazy<'s, J>>>
        requires { whole J.key_of J.value J.combined self.old.parts.outer.items self.old.parts.inner.items value ≡ J.value self.old.key }
        ensures key { self.new.key ≡ self.old.key }
        ensures asks { IfErr result (λ ask. AsksOn J.value self.new.key (turns_left self.old.forks self.old.parts.outer.items) (turns_of self.new.forks self.new.parts.outer.items self.new.stage) (forked_in self.old.parts.outer.items) (forked_in self.new.parts.outer.items) ask) }
        ensures free { IfErr result (λ ask. HoldsNothing self.new.parts.inner.items ask) }
        ensures next { IfOk result (λ j. HasNext J.key_of J.value J.combined (J.value self.new.key) self.old.forks self.old.parts.outer.items self.new.forks self.new.parts.outer.items self.new.parts.inner.items j) }
        ensures lighter { IfOk result (λ j. weigh (weight J.size) self.new.parts.inner.items + branches (J.size j) ≤ weigh (weight J.size) self.old.parts.inner.items) }
    {
        self.stage = LazyStage::Over;
        match self.parts.climb(value) {
            Climb::Next(job) => Ok(job),
            Climb::Join(task, key, left) => {
                self.stage = LazyStage::Waiting(task, key, left);
                Err(Ask::Join(task))
            }
            Climb::Skip(task, left) => {
                self.descent.signals().finish(self.span.last);
                self.stage = LazyStage::Skipping(left);
                Err(Ask::Release(task))
            }
            Climb::Whole(value) => {
                if J::is_final(&value) {
                    self.descent.signals().finish(self.span.last);
                }
                Err(Ask::Ok(value))
            }
        }
    }

    /// Puts back a half that was not forked, to be computed in its turn or offered again, and goes on with a leaf. Preconditions: there is
    /// room; the half is between the outer and the inner parts, and with them and the leaf gives the value of the whole.
    fn keep(&mut self, half: J, leaf: J) -> Result<J, Ask<Lazy<'s, J>>>
        requires total { around (outside J.value J.combined) self.old.parts.outer.items (J.combined (around (beside J.key_of J.value J.combined) self.old.parts.inner.items (J.value (J.key_of leaf))) (J.value (J.key_of half))) ≡ J.value self.old.key }
        requires leaf { J.value (J.key_of leaf) ≡ J.leaf_of leaf }
        requires room { deque_len self.old.parts.inner < deque_capacity self.old.parts.inner }
        ensures key { self.new.key ≡ self.old.key }
        ensures asks { IfErr result (λ ask. AsksOn J.value self.new.key (turns_left self.old.forks self.old.parts.outer.items) (turns_of self.new.forks self.new.parts.outer.items self.new.stage) (forked_in self.old.parts.outer.items) (forked_in self.new.parts.outer.items) ask) }
        ensures free { IfErr result (λ ask. HoldsNothing self.new.parts.inner.items ask) }
        ensures next { IfOk result (λ j. HasNext J.key_of J.value J.combined (J.value self.new.key) self.old.forks self.old.parts.outer.items self.new.forks self.new.parts.outer.items self.new.parts.inner.items j) }
        ensures lighter { IfOk result (λ j. weigh (weight J.size) self.new.parts.inner.items + branches (J.size j) ≤ weigh (weight J.size) self.old.parts.inner.items + branches (J.size half)) }
    {
        self.stage = LazyStage::Over;
        self.descent.signals().give_fork_back();
        self.parts.put_back(half);
        self.step_up(leaf.leaf())
    }

    /// Forks a half, or keeps it where out of memory. Preconditions: those of `keep`, room for an outer part, and a fork left.
    fn fork(&mut self, half: J, leaf: J) -> Result<J, Ask<Lazy<'s, J>>>
        requires total { around (outside J.value J.combined) self.old.parts.outer.items (J.combined (around (beside J.key_of J.value J.combined) self.old.parts.inner.items (J.value (J.key_of leaf))) (J.value (J.key_of half))) ≡ J.value self.old.key }
        requires leaf { J.value (J.key_of leaf) ≡ J.leaf_of leaf }
        requires room { (vec_len self.old.parts.outer < vec_capacity self.old.parts.outer) × (deque_len self.old.parts.inner < deque_capacity self.old.parts.inner) }
        requires forks { 0 < self.old.forks }
        ensures key { self.new.key ≡ self.old.key }
        ensures asks { IfErr result (λ ask. AsksOn J.value self.new.key (turns_left self.old.forks self.old.parts.outer.items) (turns_of self.new.forks self.new.parts.outer.items self.new.stage) (forked_in self.old.parts.outer.items) (forked_in self.new.parts.outer.items) ask) }
        ensures free { IfErr result (λ ask. HoldsNothing self.new.parts.inner.items ask) }
        ensures next { IfOk result (λ j. HasNext J.key_of J.value J.combined (J.value self.new.key) self.old.forks self.old.parts.outer.items self.new.forks self.new.parts.outer.items self.new.parts.inner.items j) }
        ensures lighter { IfOk result (λ j. weigh (weight J.size) self.new.parts.inner.items + branches (J.size j) ≤ weigh (weight J.size) self.old.parts.inner.items + branches (J.size half)) }
    {
        self.stage = LazyStage::Over;
        let key = half.key();
        match self.body_of(half) {
            Ok(body) => {
                self.forks -= 1;
                self.stage = LazyStage::Forking(key, leaf);
                Err(Ask::Fork(body, Kind::Plain))
            }
            Err(half) => self.keep(half, leaf),
        }
    }

    /// Takes a worker's request for work. None where no worker asks, or no half may be forked.
    fn asked(&self) -> Option<WorkerId>
        ensures { IfSome result (λ w. 0 < self.now.forks) }
    {
        if self.forks == 0 {
            return None;
        }
        let signals = self.descent.signals();
        let w = signals.take()?;
        if signals.take_fork() { Some(w) } else { None }
    }

    /// Goes on with a leaf before which the descent stopped: leaves where the body is no longer needed, and forks where a worker asks for
    /// work. Precondition: with the parts, the leaf gives the value of the whole.
    fn share(&mut self, leaf: J) -> Result<J, Ask<Lazy<'s, J>>>
        requires total { whole J.key_of J.value J.combined self.old.parts.outer.items self.old.parts.inner.items (J.value (J.key_of leaf)) ≡ J.value self.old.key }
        requires leaf { J.value (J.key_of leaf) ≡ J.leaf_of leaf }
        ensures key { self.new.key ≡ self.old.key }
        ensures asks { IfErr result (λ ask. AsksOn J.value self.new.key (turns_left self.old.forks self.old.parts.outer.items) (turns_of self.new.forks self.new.parts.outer.items self.new.stage) (forked_in self.old.parts.outer.items) (forked_in self.new.parts.outer.items) ask) }
        ensures free { IfErr result (λ ask. HoldsNothing self.new.parts.inner.items ask) }
        ensures next { IfOk result (λ j. HasNext J.key_of J.value J.combined (J.value self.new.key) self.old.forks self.old.parts.outer.items self.new.forks self.new.parts.outer.items self.new.parts.inner.items j) }
        ensures lighter { IfOk result (λ j. weigh (weight J.size) self.new.parts.inner.items + branches (J.size j) ≤ weigh (weight J.size) self.old.parts.inner.items) }
    {
        self.stage = LazyStage::Over;
        if self.descent.signals().is_over(self.span.first) {
            return Err(self.give_up());
        }
        let Some(w) = self.asked() else {
            return self.step_up(leaf.leaf());
        };
        match self.parts.take_largest() {
            Some(half) => self.fork(half, leaf),
            None => {
                let signals = self.descent.signals();
                signals.give_fork_back();
                signals.ask(w);
                self.step_up(leaf.leaf())
            }
        }
    }

    /// Computes a job until the descent stops. The next job to compute, or what to ask. Precondition: with the parts, the job gives the
    /// value of the whole.
    fn compute_on(&mut self, job: J) -> Result<J, Ask<Lazy<'s, J>>>
        requires { whole J.key_of J.value J.combined self.old.parts.outer.items self.old.parts.inner.items (J.value (J.key_of job)) ≡ J.value self.old.key }
        ensures key { self.new.key ≡ self.old.key }
        ensures asks { IfErr result (λ ask. AsksOn J.value self.new.key (turns_left self.old.forks self.old.parts.outer.items) (turns_of self.new.forks self.new.parts.outer.items self.new.stage) (forked_in self.old.parts.outer.items) (forked_in self.new.parts.outer.items) ask) }
        ensures free { IfErr result (λ ask. HoldsNothing self.new.parts.inner.items ask) }
        ensures next { IfOk result (λ j. HasNext J.key_of J.value J.combined (J.value self.new.key) self.old.forks self.old.parts.outer.items self.new.forks self.new.parts.outer.items self.new.parts.inner.items j) }
        ensures lighter { IfOk result (λ j. weigh (weight J.size) self.new.parts.inner.items + branches (J.size j) < weigh (weight J.size) self.old.parts.inner.items + branches (J.size job)) }
    {
        self.stage = LazyStage::Over;
        match self.descent.run(job) {
            Ok(value) => self.step_up(value),
            Err(stop) => match self.parts.put_in(&mut self.descent) {
                Ok(()) => match stop {
                    DescentEnd::Leaf(leaf) => self.share(leaf),
                    DescentEnd::Deep(job) => Ok(job),
                },
                Err(_) => Err(self.give_up()),
            },
        }
    }
}
