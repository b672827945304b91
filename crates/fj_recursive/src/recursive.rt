ghost use Rattle.std.specs.Prelude.{◌≡◌, ℕ, ◌+◌, ◌*◌, ◌<◌, ◌++◌, ◌∷◌, [], Option, None, IfOk, IfErr, IfSome, is_some, map, vec_len, vec_capacity};
ghost use Rattle.fj_rules.specs.Refusals.{refusal_number};
ghost use Rattle.fj_body.specs.Turns.{HeardRight, AskRight, Nearer};
ghost use Rattle.fj_recursive.specs.Recursions.{Gives, HasRoom, turns_of, left_value, tail_value};
ghost use Rattle.fj_lazy.specs.Asks.{AsksAsJob, AsksOn, JoinsOwn};
ghost use Rattle.fj_lazy.specs.Failures.{code_heard, is_want_of_room};
ghost use Rattle.fj_results.specs.Results.{RefusesAnswer, RefusesRun};
ghost use Rattle.fj_recursive.specs.Asks.{forked_by, forked_in};
ghost use Rattle.fj_recursive.specs.Stages.{AsksNext, Finishes, Forks, GoesOn, Leaves, is_in_place, is_under};

use crate::lefts::{fold_done, last_forked};
use crate::recursive_stage::{Left, RecursiveStage};
use fj_body::{Ask, Body, Heard, Outcome};
use fj_jobs::{Divide, compute};
use fj_results::result_under;
use fj_rules::{Kind, Refusal, Serial};
use std::alloc::{AllocError, Global};
use std::mem;

/// A job as a body: it forks the left half, goes on with the right one in the same way, and then joins what it forked, the last one first.
/// It is submitted as a plain task, with the key of its job: `RecursiveTask`. It is boxed, since a pool moves a body several times.
#[derive(Drop)]
pub struct Recursive<J: Divide> {
    inside: Box<RecursiveState<J>>,
}

/// The state of a recursive body.
#[derive(Drop)]
pub struct RecursiveState<J: Divide> {
    key: J::Key,
    /// What it forked, or had to compute in place, from left to right.
    lefts: Vec<Left<J>>,
    stage: RecursiveStage<J>,
    ghost total: { ∥ Gives J.key_of J.value J.combined lefts.items stage (J.value key) ∥₁ },
    ghost room: { ∥ HasRoom stage (vec_len lefts < vec_capacity lefts) ∥₁ },
}

/// Whether a fork was refused for lack of room: then its job may be computed in place.
fn is_want_of_room(refusal: Refusal) -> bool
    ensures { result ≡ is_want_of_room refusal }
{
    matches!(refusal, Refusal::TooManyTasks | Refusal::LogFull)
}

/// The code with which a body fails that hears this and cannot go on.
fn failure_code<J: Divide>(heard: &Heard<Recursive<J>>) -> u32
    ensures { result ≡ code_heard heard.now }
{
    match heard {
        Heard::Failed(code) => *code,
        Heard::Refused(refusal) => refusal.number(),
        _ => Refusal::OutOfMemory.number(),
    }
}

/// The value of a body that was not forked, if it has this key and was refused for lack of room.
fn in_place<J: Divide>(body: Recursive<J>, refusal: Refusal, key: J::Key) -> Option<J::Out>
    ensures value { IfSome result (λ v. v ≡ J.value key) }
    ensures some { is_some result ≡ is_in_place J.key_of J.Key.eq key refusal body.inside.value.stage }
{
    if is_want_of_room(refusal) {
        body.value_at(key)
    } else {
        None
    }
}

impl<J: Divide> Recursive<J> {
    /// A body for this job, before its first turn. `AllocError` where out of memory.
    pub fn new(alloc: Global, job: J) -> Result<Recursive<J>, AllocError>
        ensures key { IfOk result (λ body. body.inside.value.key ≡ J.key_of job) }
        ensures begins { IfOk result (λ body. body.inside.value.stage ≡ RecursiveStage.Going job) }
        ensures none { IfOk result (λ body. body.inside.value.lefts.items ≡ []) }
    {
        let inside = RecursiveState {
            key: job.key(),
            lefts: Vec::new(alloc),
            stage: RecursiveStage::Going(job),
        };
        match Box::new(alloc, inside) {
            Ok(inside) => Ok(Recursive { inside }),
            Err(_) => Err(AllocError),
        }
    }

    /// The value of the job with which it begins, if its key is this one.
    fn value_at(self, key: J::Key) -> Option<J::Out>
        ensures value { IfSome result (λ v. v ≡ J.value key) }
        ensures some { is_some result ≡ is_under J.key_of J.Key.eq key self.inside.value.stage }
    {
        let Recursive { inside } = self;
        let RecursiveState {
            key: _,
            lefts: _,
            stage,
        } = Box::into_inner(inside);
        let RecursiveStage::Going(job) = stage else {
            return None;
        };
        if job.key() != key {
            return None;
        }
        Some(compute(job))
    }

    /// The value of the jobs with this key, from what came of a body of one: the answer of `run_alone`, or of a pool to which it was
    /// submitted.
    ///
    /// `LogFull` if the answer is that refusal, or the body failed with its number. `OutOfMemory` if there is no result under this key for any
    /// other reason.
    pub fn value_in(
        answer: Result<Outcome<Recursive<J>>, Refusal>,
        key: J::Key,
    ) -> Result<J::Out, Refusal>
        ensures value { IfOk result (λ out. out ≡ J.value key) }
        ensures refused { IfErr result (λ refusal. RefusesAnswer J.Key.eq key answer refusal) }
        ensures err { IfErr result RefusesRun }
    {
        result_under(answer, &key)
    }
}

impl<J: Divide> RecursiveState<J> {
    /// Releases what it forked, the last one first, and then fails with this code.
    fn leave(&mut self, code: u32) -> Ask<Recursive<J>>
        ensures key { self.new.key ≡ self.old.key }
        ensures asks { AsksOn J.value self.new.key (vec_len self.old.lefts) (turns_of J.size (vec_len self.new.lefts) self.new.stage) (forked_in self.old.lefts.items) (forked_in self.new.lefts.items) result }
        ensures leaves { Leaves code self.new.stage result }
    {
        self.stage = RecursiveStage::Leaving(code);
        match last_forked(&mut self.lefts) {
            Some(task) => Ask::Release(task),
            None => Ask::Fail(code),
        }
    }

    /// Leaves with the code of `OutOfMemory`.
    fn give_up(&mut self) -> Ask<Recursive<J>>
        ensures key { self.new.key ≡ self.old.key }
        ensures asks { AsksOn J.value self.new.key (2 * vec_len self.old.lefts + 1) (turns_of J.size (vec_len self.new.lefts) self.new.stage) (forked_in self.old.lefts.items) (forked_in self.new.lefts.items) result }
        ensures leaves { Leaves (refusal_number Refusal.OutOfMemory) self.new.stage result }
    {
        self.leave(Refusal::OutOfMemory.number())
    }
}

impl<J: Divide> RecursiveState<J> {
    /// Goes on once everything right of the left halves has this value. Precondition: with theirs it gives the value of the whole.
    #[inline(always)]
    fn finish(&mut self, tail: J::Out) -> Ask<Recursive<J>>
        requires { tail_value J.combined (map (left_value J.value) self.old.lefts.items) tail ≡ J.value self.old.key }
        ensures key { self.new.key ≡ self.old.key }
        ensures asks { AsksOn J.value self.new.key (2 * vec_len self.old.lefts) (turns_of J.size (vec_len self.new.lefts) self.new.stage) (forked_in self.old.lefts.items) (forked_in self.new.lefts.items) result }
        ensures finishes { Finishes self.new.stage result }
    {
        self.stage = RecursiveStage::Over;
        match fold_done(&mut self.lefts, tail) {
            Ok(value) => Ask::Ok(value),
            Err((task, key, tail)) => {
                self.stage = RecursiveStage::Waiting(task, key, tail);
                Ask::Join(task)
            }
        }
    }

    /// Forks a left half, and then goes on with the right one. Leaves where out of memory. Precondition: with the left halves they give the
    /// value of the whole.
    #[inline(always)]
    fn fork(&mut self, left: J, right: J) -> Ask<Recursive<J>>
        requires { tail_value J.combined (map (left_value J.value) self.old.lefts.items) (J.combined (J.value (J.key_of left)) (J.value (J.key_of right))) ≡ J.value self.old.key }
        ensures key { self.new.key ≡ self.old.key }
        ensures asks { AsksOn J.value self.new.key (4 * J.size right + 2 * vec_len self.old.lefts + 6) (turns_of J.size (vec_len self.new.lefts) self.new.stage) (forked_in self.old.lefts.items) (forked_in self.new.lefts.items) result }
        ensures forks { Forks J.key_of (λ b. b.inside.value.stage) (λ b. b.inside.value.lefts.items) left right self.new.stage result }
    {
        self.stage = RecursiveStage::Over;
        if self.lefts.reserve(1).is_err() {
            return self.give_up();
        }
        let key = left.key();
        match Recursive::new(*self.lefts.allocator(), left) {
            Ok(body) => {
                self.stage = RecursiveStage::Forking(right, key);
                Ask::Fork(body, Kind::Plain)
            }
            Err(_) => self.give_up(),
        }
    }

    /// Splits a job, or computes it as a leaf. Precondition: with the left halves it gives the value of the whole.
    #[inline(always)]
    fn go_on(&mut self, job: J) -> Ask<Recursive<J>>
        requires { tail_value J.combined (map (left_value J.value) self.old.lefts.items) (J.value (J.key_of job)) ≡ J.value self.old.key }
        ensures key { self.new.key ≡ self.old.key }
        ensures asks { AsksOn J.value self.new.key (4 * J.size job + 2 * vec_len self.old.lefts + 2) (turns_of J.size (vec_len self.new.lefts) self.new.stage) (forked_in self.old.lefts.items) (forked_in self.new.lefts.items) result }
        ensures next { GoesOn J.key_of J.value J.leaf_of J.combined J.size (λ b. b.inside.value.stage) (λ b. b.inside.value.lefts.items) job self.new.stage result }
    {
        match job.split() {
            Ok((left, right)) => self.fork(left, right),
            Err(leaf) => {
                let tail = leaf.leaf();
                self.finish(tail)
            }
        }
    }

    /// Puts a left half aside, and goes on with the right one. Preconditions: there is room; with the left halves before them they give the
    /// value of the whole.
    #[inline(always)]
    fn forked(&mut self, job: J, left: Left<J>) -> Ask<Recursive<J>>
        requires total { tail_value J.combined (map (left_value J.value) self.old.lefts.items) (J.combined (left_value J.value left) (J.value (J.key_of job))) ≡ J.value self.old.key }
        requires room { vec_len self.old.lefts < vec_capacity self.old.lefts }
        ensures key { self.new.key ≡ self.old.key }
        ensures asks { AsksOn J.value self.new.key (4 * J.size job + 2 * vec_len self.old.lefts + 5) (turns_of J.size (vec_len self.new.lefts) self.new.stage) (forked_in (self.old.lefts.items ++ left ∷ [])) (forked_in self.new.lefts.items) result }
        ensures next { GoesOn J.key_of J.value J.leaf_of J.combined J.size (λ b. b.inside.value.stage) (λ b. b.inside.value.lefts.items) job self.new.stage result }
    {
        self.stage = RecursiveStage::Over;
        self.lefts.push_reserved(left);
        self.go_on(job)
    }
}

impl<J: Divide> RecursiveState<J> {
    /// The first turn. Precondition: with the left halves, the job has the value of the whole.
    #[inline(always)]
    fn begin(&mut self, job: J, heard: Heard<Recursive<J>>) -> Ask<Recursive<J>>
        requires { tail_value J.combined (map (left_value J.value) self.old.lefts.items) (J.value (J.key_of job)) ≡ J.value self.old.key }
        ensures key { self.new.key ≡ self.old.key }
        ensures asks { AsksOn J.value self.new.key (4 * J.size job + 2 * vec_len self.old.lefts + 2) (turns_of J.size (vec_len self.new.lefts) self.new.stage) (forked_in self.old.lefts.items) (forked_in self.new.lefts.items) result }
        ensures next { AsksNext J.key_of J.value J.leaf_of J.combined J.size (λ b. b.inside.value.stage) (λ b. b.inside.value.lefts.items) J.Key.eq (RecursiveStage.Going job) heard self.new.stage result }
    {
        match heard {
            Heard::Start(_) => self.go_on(job),
            other => self.leave(failure_code(&other)),
        }
    }

    /// A turn after the fork of a left half with this key. Preconditions: there is room for it; it gives the value of the whole, with the job
    /// and the left halves.
    #[inline(always)]
    fn after_fork(&mut self, job: J, key: J::Key, heard: Heard<Recursive<J>>) -> Ask<Recursive<J>>
        requires room { vec_len self.old.lefts < vec_capacity self.old.lefts }
        requires total { tail_value J.combined (map (left_value J.value) self.old.lefts.items) (J.combined (J.value key) (J.value (J.key_of job))) ≡ J.value self.old.key }
        ensures key { self.new.key ≡ self.old.key }
        ensures asks { AsksOn J.value self.new.key (4 * J.size job + 2 * vec_len self.old.lefts + 5) (turns_of J.size (vec_len self.new.lefts) self.new.stage) (forked_by self.old.lefts.items (RecursiveStage.Forking job key) heard) (forked_in self.new.lefts.items) result }
        ensures next { AsksNext J.key_of J.value J.leaf_of J.combined J.size (λ b. b.inside.value.stage) (λ b. b.inside.value.lefts.items) J.Key.eq (RecursiveStage.Forking job key) heard self.new.stage result }
    {
        match heard {
            Heard::Task(task) => self.forked(job, Left::Forked(task, key)),
            Heard::Handed(body, refusal) => match in_place(body, refusal, key) {
                Some(value) => self.forked(job, Left::Done(value)),
                None => self.give_up(),
            },
            other => self.leave(failure_code(&other)),
        }
    }

    /// A turn after the join of this task, a left half with this key. Precondition: with everything right of it and the left halves it gives the
    /// value of the whole.
    #[inline(always)]
    fn after_join(
        &mut self,
        task: Serial,
        key: J::Key,
        tail: J::Out,
        heard: Heard<Recursive<J>>,
    ) -> Ask<Recursive<J>>
        requires heard { HeardRight (λ k o. o ≡ J.value k) heard }
        requires total { tail_value J.combined (map (left_value J.value) self.old.lefts.items) (J.combined (J.value key) tail) ≡ J.value self.old.key }
        ensures key { self.new.key ≡ self.old.key }
        ensures asks { AsksOn J.value self.new.key (2 * vec_len self.old.lefts + 1) (turns_of J.size (vec_len self.new.lefts) self.new.stage) (forked_by self.old.lefts.items (RecursiveStage.Waiting task key tail) heard) (forked_in self.new.lefts.items) result }
        ensures next { AsksNext J.key_of J.value J.leaf_of J.combined J.size (λ b. b.inside.value.stage) (λ b. b.inside.value.lefts.items) J.Key.eq (RecursiveStage.Waiting task key tail) heard self.new.stage result }
    {
        match heard {
            Heard::Got(heard_key, out) => {
                if heard_key != key {
                    return self.give_up();
                }
                self.finish(J::combine(out, tail))
            }
            other => {
                self.stage = RecursiveStage::Leaving(failure_code(&other));
                Ask::Release(task)
            }
        }
    }

    /// Takes a turn. Precondition: a result that it hears is right for its key.
    #[inline(always)]
    fn turn(&mut self, heard: Heard<Recursive<J>>) -> Ask<Recursive<J>>
        requires { HeardRight (λ k o. o ≡ J.value k) heard }
        ensures key { self.new.key ≡ self.old.key }
        ensures asks { AsksOn J.value self.old.key (turns_of J.size (vec_len self.old.lefts) self.old.stage) (turns_of J.size (vec_len self.new.lefts) self.new.stage) (forked_by self.old.lefts.items self.old.stage heard) (forked_in self.new.lefts.items) result }
        ensures next { AsksNext J.key_of J.value J.leaf_of J.combined J.size (λ b. b.inside.value.stage) (λ b. b.inside.value.lefts.items) J.Key.eq self.old.stage heard self.new.stage result }
    {
        match mem::replace(&mut self.stage, RecursiveStage::Over) {
            RecursiveStage::Going(job) => self.begin(job, heard),
            RecursiveStage::Forking(job, key) => self.after_fork(job, key, heard),
            RecursiveStage::Waiting(task, key, tail) => self.after_join(task, key, tail, heard),
            RecursiveStage::Leaving(code) => self.leave(code),
            RecursiveStage::Over => self.leave(failure_code(&heard)),
        }
    }
}

impl<J: Divide> Body for Recursive<J> {
    type Key = J::Key;

    type Out = J::Out;

    ghost key_of = { λ b. b.inside.value.key };

    ghost rooted_as = { λ b. None };

    ghost right = { λ k o. o ≡ J.value k };

    ghost turns = { λ b. turns_of J.size (vec_len b.inside.value.lefts) b.inside.value.stage };

    fn key(&self) -> &J::Key {
        &self.inside.key
    }

    fn into_key(self) -> J::Key {
        let Recursive { inside } = self;
        let RecursiveState {
            key,
            lefts: _,
            stage: _,
        } = Box::into_inner(inside);
        key
    }

    fn rooted(&self) -> Option<u16> {
        None
    }

    #[inline(always)]
    fn turn(&mut self, heard: Heard<Recursive<J>>) -> Ask<Recursive<J>>
        requires { HeardRight (λ k o. o ≡ J.value k) heard }
        ensures key { self.new.inside.value.key ≡ self.old.inside.value.key }
        ensures rooted { ◌≡◌ {A = Option ℕ} None None }
        ensures right { AskRight (λ k o. o ≡ J.value k) self.old.inside.value.key result }
        ensures nearer { Nearer (turns_of J.size (vec_len self.new.inside.value.lefts) self.new.inside.value.stage) (turns_of J.size (vec_len self.old.inside.value.lefts) self.old.inside.value.stage) result }
        ensures next { AsksNext J.key_of J.value J.leaf_of J.combined J.size (λ b. b.inside.value.stage) (λ b. b.inside.value.lefts.items) J.Key.eq self.old.inside.value.stage heard self.new.inside.value.stage result }
        ensures asks { AsksAsJob result }
        ensures joins { JoinsOwn (forked_by self.old.inside.value.lefts.items self.old.inside.value.stage heard) (forked_in self.new.inside.value.lefts.items) result }
    {
        self.inside.turn(heard)
    }
}
