//! The turns of a lazy body.
ghost use Rattle.std.specs.Prelude.{◌≡◌, ℕ, ◌+◌, ◌<◌, ◌++◌, ◌∷◌, [], Option, None, IfSome, true, vec_len, vec_capacity};
ghost use Rattle.std.specs.VecDeque.{deque_len, deque_capacity};
ghost use Rattle.fj_body.specs.Turns.{HeardRight, AskRight, Nearer};
ghost use Rattle.fj_lazy.specs.PartsAside.{around, beside, forked_in, outside, whole};
ghost use Rattle.fj_lazy.specs.Splits.{turns_left, turns_of};
ghost use Rattle.fj_lazy.specs.Asks.{AsksAsJob, AsksOn, HoldsNothing, JoinsOwn, forked_by};
ghost use Rattle.fj_lazy.specs.Failures.{AsksFailing, code_heard, is_want_of_room};

use super::Lazy;
use crate::part::{LazyStage, Outer};
use fj_body::{Ask, Body, Heard};
use fj_jobs::Divide;
use fj_rules::{Refusal, Serial};
use std::mem;

/// Whether a fork was refused for lack of room: then its job may be computed in place.
fn is_want_of_room(refusal: Refusal) -> bool
    ensures { result ≡ is_want_of_room refusal }
{
    matches!(refusal, Refusal::TooManyTasks | Refusal::LogFull)
}

/// The code with which a body fails that hears this and cannot go on.
fn failure_code<J: Divide>(heard: &Heard<Lazy<'_, J>>) -> u32
    ensures { result ≡ code_heard heard.now }
{
    match heard {
        Heard::Failed(code) => *code,
        Heard::Refused(refusal) => refusal.number(),
        _ => Refusal::OutOfMemory.number(),
    }
}

/// The job of a body that was not forked, if it has this key and was refused for lack of room.
fn half_of<J: Divide>(body: Lazy<'_, J>, refusal: Refusal, key: J::Key) -> Option<J>
    ensures value { IfSome result (λ j. J.value (J.key_of j) ≡ J.value key) }
    ensures room { IfSome result (λ j. is_want_of_room refusal ≡ true) }
{
    let Lazy {
        key: _,
        parts,
        stage,
        descent,
        span: _,
        forks: _,
    } = body;
    // Explicit drops are proved faster.
    drop(parts);
    drop(descent);
    let LazyStage::Going(half) = stage else {
        return None;
    };
    if is_want_of_room(refusal) && half.key() == key {
        Some(half)
    } else {
        None
    }
}

impl<'s, J: Divide> Lazy<'s, J> {
    /// Computes a job and those after it, until it asks something. Precondition: with the parts, the job gives the value of the whole.
    fn go_on(&mut self, job: J) -> Ask<Lazy<'s, J>>
        requires { whole J.key_of J.value J.combined self.old.parts.outer.items self.old.parts.inner.items (J.value (J.key_of job)) ≡ J.value self.old.key }
        ensures key { self.new.key ≡ self.old.key }
        ensures asks { AsksOn J.value self.new.key (turns_left self.old.forks self.old.parts.outer.items) (turns_of self.new.forks self.new.parts.outer.items self.new.stage) (forked_in self.old.parts.outer.items) (forked_in self.new.parts.outer.items) result }
        ensures free { HoldsNothing self.new.parts.inner.items result }
    {
        let mut job = job;
        loop {
            match self.compute_on(job) {
                Ok(next) => job = next,
                Err(ask) => return ask,
            }
        }
    }

    /// Combines a value with those beside it, and goes on until it asks something. Precondition: with the parts, the value gives that of
    /// the whole.
    fn go_up(&mut self, value: J::Out) -> Ask<Lazy<'s, J>>
        requires { whole J.key_of J.value J.combined self.old.parts.outer.items self.old.parts.inner.items value ≡ J.value self.old.key }
        ensures key { self.new.key ≡ self.old.key }
        ensures asks { AsksOn J.value self.new.key (turns_left self.old.forks self.old.parts.outer.items) (turns_of self.new.forks self.new.parts.outer.items self.new.stage) (forked_in self.old.parts.outer.items) (forked_in self.new.parts.outer.items) result }
        ensures free { HoldsNothing self.new.parts.inner.items result }
    {
        match self.step_up(value) {
            Ok(job) => self.go_on(job),
            Err(ask) => ask,
        }
    }

    /// Goes on with a leaf, beside a half that was forked. Preconditions: there is room, and with the parts they give the value of the whole.
    fn go_within(&mut self, forked: Outer<J>, leaf: J) -> Ask<Lazy<'s, J>>
        requires total { whole J.key_of J.value J.combined (self.old.parts.outer.items ++ forked ∷ []) self.old.parts.inner.items (J.value (J.key_of leaf)) ≡ J.value self.old.key }
        requires room { vec_len self.old.parts.outer < vec_capacity self.old.parts.outer }
        ensures key { self.new.key ≡ self.old.key }
        ensures asks { AsksOn J.value self.new.key (turns_left self.old.forks self.old.parts.outer.items + 1) (turns_of self.new.forks self.new.parts.outer.items self.new.stage) (forked_in (self.old.parts.outer.items ++ forked ∷ [])) (forked_in self.new.parts.outer.items) result }
        ensures free { HoldsNothing self.new.parts.inner.items result }
    {
        self.stage = LazyStage::Over;
        self.parts.outer.push_reserved(forked);
        self.go_on(leaf)
    }

    /// Goes on with a leaf, beside a half that was handed back. Preconditions: those of `keep`.
    fn go_without(&mut self, half: J, leaf: J) -> Ask<Lazy<'s, J>>
        requires total { around (outside J.value J.combined) self.old.parts.outer.items (J.combined (around (beside J.key_of J.value J.combined) self.old.parts.inner.items (J.value (J.key_of leaf))) (J.value (J.key_of half))) ≡ J.value self.old.key }
        requires leaf { J.value (J.key_of leaf) ≡ J.leaf_of leaf }
        requires room { deque_len self.old.parts.inner < deque_capacity self.old.parts.inner }
        ensures key { self.new.key ≡ self.old.key }
        ensures asks { AsksOn J.value self.new.key (turns_left self.old.forks self.old.parts.outer.items) (turns_of self.new.forks self.new.parts.outer.items self.new.stage) (forked_in self.old.parts.outer.items) (forked_in self.new.parts.outer.items) result }
        ensures free { HoldsNothing self.new.parts.inner.items result }
    {
        match self.keep(half, leaf) {
            Ok(job) => self.go_on(job),
            Err(ask) => ask,
        }
    }
}

impl<'s, J: Divide> Lazy<'s, J> {
    /// The first turn. Precondition: the job has the value of the whole.
    fn begin(&mut self, job: J, heard: Heard<Lazy<'s, J>>) -> Ask<Lazy<'s, J>>
        requires { whole J.key_of J.value J.combined self.old.parts.outer.items self.old.parts.inner.items (J.value (J.key_of job)) ≡ J.value self.old.key }
        ensures key { self.new.key ≡ self.old.key }
        ensures asks { AsksOn J.value self.new.key (turns_left self.old.forks self.old.parts.outer.items) (turns_of self.new.forks self.new.parts.outer.items self.new.stage) (forked_in self.old.parts.outer.items) (forked_in self.new.parts.outer.items) result }
        ensures free { HoldsNothing self.new.parts.inner.items result }
        ensures failing { AsksFailing J.Key.eq (LazyStage.Going job) heard.entry self.new.stage result }
    {
        match heard {
            Heard::Start(_) => {
                if self.descent.signals().is_over(self.span.first) {
                    return self.give_up();
                }
                self.go_on(job)
            }
            other => self.leave(failure_code(&other)),
        }
    }

    /// A turn after the fork of a half with this key. Preconditions: there is room; with the parts, the half and the leaf give the value of
    /// the whole.
    fn after_fork(&mut self, key: J::Key, leaf: J, heard: Heard<Lazy<'s, J>>) -> Ask<Lazy<'s, J>>
        requires total { around (outside J.value J.combined) self.old.parts.outer.items (J.combined (around (beside J.key_of J.value J.combined) self.old.parts.inner.items (J.value (J.key_of leaf))) (J.value key)) ≡ J.value self.old.key }
        requires leaf { J.value (J.key_of leaf) ≡ J.leaf_of leaf }
        requires outer_room { vec_len self.old.parts.outer < vec_capacity self.old.parts.outer }
        requires inner_room { deque_len self.old.parts.inner < deque_capacity self.old.parts.inner }
        ensures key { self.new.key ≡ self.old.key }
        ensures asks { AsksOn J.value self.new.key (turns_left self.old.forks self.old.parts.outer.items + 1) (turns_of self.new.forks self.new.parts.outer.items self.new.stage) (forked_by self.old.parts.outer.items (LazyStage.Forking key leaf) heard.entry) (forked_in self.new.parts.outer.items) result }
        ensures free { HoldsNothing self.new.parts.inner.items result }
        ensures failing { AsksFailing J.Key.eq (LazyStage.Forking key leaf) heard.entry self.new.stage result }
    {
        match heard {
            Heard::Task(task) => self.go_within(Outer::Forked(task, key), leaf),
            Heard::Handed(body, refusal) => match half_of(body, refusal, key) {
                Some(half) => self.go_without(half, leaf),
                None => self.give_up(),
            },
            other => self.leave(failure_code(&other)),
        }
    }

    /// A turn after the join of this task, a half with this key. Precondition: with everything left of it, it gives the value of the whole.
    fn after_join(
        &mut self,
        task: Serial,
        key: J::Key,
        left: J::Out,
        heard: Heard<Lazy<'s, J>>,
    ) -> Ask<Lazy<'s, J>>
        requires heard { HeardRight (λ k o. o ≡ J.value k) heard }
        requires total { whole J.key_of J.value J.combined self.old.parts.outer.items self.old.parts.inner.items (J.combined left (J.value key)) ≡ J.value self.old.key }
        ensures key { self.new.key ≡ self.old.key }
        ensures asks { AsksOn J.value self.new.key (turns_left self.old.forks self.old.parts.outer.items) (turns_of self.new.forks self.new.parts.outer.items self.new.stage) (forked_by self.old.parts.outer.items (LazyStage.Waiting task key left) heard.entry) (forked_in self.new.parts.outer.items) result }
        ensures free { HoldsNothing self.new.parts.inner.items result }
        ensures failing { AsksFailing J.Key.eq (LazyStage.Waiting task key left) heard.entry self.new.stage result }
    {
        match heard {
            Heard::Got(heard_key, right) => {
                if heard_key != key {
                    return self.give_up();
                }
                self.go_up(J::combine(left, right))
            }
            other => {
                self.stage = LazyStage::Leaving(failure_code(&other));
                Ask::Release(task)
            }
        }
    }
}

impl<'s, J: Divide> Body for Lazy<'s, J> {
    type Key = J::Key;

    type Out = J::Out;

    ghost key_of = { λ b. b.key };

    ghost rooted_as = { λ b. None };

    ghost right = { λ k o. o ≡ J.value k };

    ghost turns = { λ b. turns_of b.forks b.parts.outer.items b.stage };

    fn key(&self) -> &J::Key {
        &self.key
    }

    fn into_key(self) -> J::Key {
        let Lazy {
            key,
            parts: _,
            stage: _,
            descent: _,
            span: _,
            forks: _,
        } = self;
        key
    }

    fn rooted(&self) -> Option<u16> {
        None
    }

    fn turn(&mut self, heard: Heard<Lazy<'s, J>>) -> Ask<Lazy<'s, J>>
        requires { HeardRight (λ k o. o ≡ J.value k) heard }
        ensures key { self.new.key ≡ self.old.key }
        ensures rooted { ◌≡◌ {A = Option ℕ} None None }
        ensures right { AskRight (λ k o. o ≡ J.value k) self.old.key result }
        ensures nearer { Nearer (turns_of self.new.forks self.new.parts.outer.items self.new.stage) (turns_of self.old.forks self.old.parts.outer.items self.old.stage) result }
        ensures failing { AsksFailing J.Key.eq self.old.stage heard.entry self.new.stage result }
        ensures asks { AsksAsJob result }
        ensures joins { JoinsOwn (forked_by self.old.parts.outer.items self.old.stage heard.entry) (forked_in self.new.parts.outer.items) result }
        ensures free { HoldsNothing self.new.parts.inner.items result }
    {
        match mem::replace(&mut self.stage, LazyStage::Over) {
            LazyStage::Going(job) => self.begin(job, heard),
            LazyStage::Forking(key, leaf) => self.after_fork(key, leaf, heard),
            LazyStage::Waiting(task, key, left) => self.after_join(task, key, left, heard),
            LazyStage::Skipping(left) => self.go_up(left),
            LazyStage::Leaving(code) => self.leave(code),
            LazyStage::Over => self.leave(failure_code(&heard)),
        }
    }
}
