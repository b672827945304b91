//! What a worker does in one holding of the lock: all that needs no turn of a body is done at once.
ghost use Rattle.std.specs.Prelude.{◌≡◌, [], None, IfSome, IfNone, IsSome, Err, true, false};
ghost use Rattle.fj_slots.specs.Hands.{asker};
ghost use Rattle.fj_body.specs.Choosing.{Polls};
ghost use Rattle.fj_body.specs.Fitting.{Fits};
ghost use Rattle.fj_body.specs.Turns.{AskRight, ToldRight};
ghost use Rattle.fj_body.specs.Acting.{Acts};
ghost use Rattle.fj_calls.specs.Closes.{is_finished};
ghost use Rattle.fj_calls.specs.Cores.{ChangesStore};
ghost use Rattle.fj_guarded.specs.Keeping.{KeepsOthers};
ghost use Rattle.fj_guarded.specs.Turning.{LeavesWell, MayAsk, NextRight};
ghost use Rattle.fj_guarded.specs.Working.{JoinsOnce, IsPolled, LooksForWork, NextOfPoll, PollsOn, Resumes, Serves, Then, Waits, WithoutTask, joined_of, next_asleep, next_idle, noted};
ghost use Rattle.fj_calls.specs.Joins.{is_joinable};

use crate::guarded::Guarded;
use crate::guarded::outside::TakenIn;
use crate::next::{MOST_SKIPPED, Next, Unneeded};
use fj_body::{Ask, Body, Heard, Told};
use fj_calls::{CoreLanes, CoreQueries, CoreSleep, CoreWaking, CoreWorkers};
use fj_rules::{Refusal, Serial, WorkerId};
use fj_slots::Hand;
use fj_submitter::Naming;
use std::alloc::Global;

impl<
    B: Body,
    N: Naming,
    C: CoreLanes<B> + CoreQueries<B> + CoreSleep<B> + CoreWaking<B> + CoreWorkers<B>,
> Guarded<B, N, C> {
    /// Serves what the hook or the running body asks; without an ask the worker resumes. Preconditions: the hand fits, and has a body or a
    /// hook that may ask this.
    pub fn serve(
        &mut self,
        alloc: Global,
        hand: &mut Hand<B>,
        ask: Option<Ask<B>>,
        unneeded: &mut Unneeded<B>,
    ) -> Next<B>
        requires fits { Fits self.old.store.past hand.old }
        requires asks { IfSome ask (λ a. MayAsk B.right B.key_of hand.old a) }
        ensures serves { IfSome ask (λ a. Serves B.key_of B.rooted_as self.old hand.old a result self.new hand.new) }
        ensures resumes { IfNone ask (Resumes B.key_of B.rooted_as self.old hand.old result self.new hand.new) }
        ensures right { NextRight B.right result }
        ensures leaves { LeavesWell self.new result }
        ensures fits { Fits self.new.store.past hand.new }
        ensures others { KeepsOthers hand.old.worker self.old.store.past self.new.store.past }
        ensures worker { hand.new.worker ≡ hand.old.worker }
    {
        match ask {
            Some(ask) => self.serve_ask(alloc, hand, ask, unneeded),
            None => self.resume(alloc, hand, unneeded),
        }
    }

    /// Serves what the hook or the running body asks. If that body ends, the worker resumes at once.
    fn serve_ask(
        &mut self,
        alloc: Global,
        hand: &mut Hand<B>,
        ask: Ask<B>,
        unneeded: &mut Unneeded<B>,
    ) -> Next<B>
        requires fits { Fits self.old.store.past hand.old }
        requires asks { MayAsk B.right B.key_of hand.old ask }
        ensures serves { Serves B.key_of B.rooted_as self.old hand.old ask result self.new hand.new }
        ensures right { NextRight B.right result }
        ensures leaves { LeavesWell self.new result }
        ensures fits { Fits self.new.store.past hand.new }
        ensures others { KeepsOthers hand.old.worker self.old.store.past self.new.store.past }
        ensures worker { hand.new.worker ≡ hand.old.worker }
    {
        let joined = joined_by(&ask);
        let told = self.note_and_act(hand, ask);
        match told {
            Told::Hear(heard) => Next::Turn(heard),
            Told::Run(t) => Next::Begin(t),
            Told::Skip(_, body) => skip(body, unneeded),
            Told::None => self.after_none(alloc, hand.worker(), joined),
            Told::Hook(_, caller) => Next::Turn(Heard::Hook(caller)),
            Told::Over(body) => {
                unneeded.add_ended(body);
                self.resume(alloc, hand, unneeded)
            }
            Told::Stuck(body) => self.leave_stuck(body, unneeded),
        }
    }

    /// One action on the core, which leaves what the other workers hold. Preconditions: the hand fits and has a body or a hook, and a result
    /// that is given is right for the key of the body that asks.
    #[inline(always)]
    fn act(&mut self, hand: &mut Hand<B>, ask: Ask<B>) -> Told<B>
        requires fits { Fits self.old.store.past hand.old }
        requires busy { IsSome (asker hand.old) }
        requires right { IfSome (asker hand.old) (λ b. AskRight B.right (B.key_of b.1) ask) }
        ensures acts { Acts B.key_of self.old.store hand.old ask result self.new.store hand.new }
        ensures others { ChangesStore self.old self.new }
        ensures right { ToldRight B.right result }
        ensures fits { Fits self.new.store.past hand.new }
        ensures keeps { KeepsOthers hand.old.worker self.old.store.past self.new.store.past }
        ensures worker { hand.new.worker ≡ hand.old.worker }
    {
        // For the proof: the past is that of a run.
        let _run = self.core.machine();
        self.core.act(hand, ask)
    }

    /// The same, after noting what a running body joins, or that it helps.
    fn note_and_act(&mut self, hand: &mut Hand<B>, ask: Ask<B>) -> Told<B>
        requires fits { Fits self.old.store.past hand.old }
        requires asks { MayAsk B.right B.key_of hand.old ask }
        ensures acts { Acts B.key_of self.old.store (noted hand.old ask) ask result self.new.store hand.new }
        ensures others { ChangesStore self.old self.new }
        ensures right { ToldRight B.right result }
        ensures fits { Fits self.new.store.past hand.new }
        ensures keeps { KeepsOthers hand.old.worker self.old.store.past self.new.store.past }
        ensures worker { hand.new.worker ≡ hand.old.worker }
    {
        note(hand, &ask);
        self.act(hand, ask)
    }

    /// One poll, which leaves what the other workers hold. Preconditions: the hand fits, and has no body and no hook.
    #[inline(always)]
    fn poll(&mut self, hand: &mut Hand<B>) -> Told<B>
        requires fits { Fits self.old.store.past hand.old }
        requires idle { (hand.old.stack ≡ []) × (hand.old.hook ≡ None) }
        ensures polls { Polls self.old.store hand.old result self.new.store hand.new }
        ensures others { ChangesStore self.old self.new }
        ensures fits { Fits self.new.store.past hand.new }
        ensures keeps { KeepsOthers hand.old.worker self.old.store.past self.new.store.past }
        ensures worker { hand.new.worker ≡ hand.old.worker }
    {
        self.core.poll(hand)
    }

    /// No body takes a turn now: a body that waits goes on, or the worker looks for work.
    #[inline(always)]
    fn resume(&mut self, alloc: Global, hand: &mut Hand<B>, unneeded: &mut Unneeded<B>) -> Next<B>
        requires { Fits self.old.store.past hand.old }
        ensures resumes { Resumes B.key_of B.rooted_as self.old hand.old result self.new hand.new }
        ensures right { NextRight B.right result }
        ensures leaves { LeavesWell self.new result }
        ensures fits { Fits self.new.store.past hand.new }
        ensures others { KeepsOthers hand.old.worker self.old.store.past self.new.store.past }
        ensures worker { hand.new.worker ≡ hand.old.worker }
    {
        if hand.is_empty() {
            return self.look_for_work(alloc, hand, unneeded);
        }
        match hand.joined() {
            Some(t) => self.join(alloc, hand, t, unneeded),
            // It helped. A body that an earlier call left, since the core was stuck, hears this too: its next ask finds the core stuck.
            None => Next::Turn(Heard::Helped(true)),
        }
    }

    /// The running body, or the hook, retries to join a task.
    fn join(
        &mut self,
        alloc: Global,
        hand: &mut Hand<B>,
        t: Serial,
        unneeded: &mut Unneeded<B>,
    ) -> Next<B>
        requires fits { Fits self.old.store.past hand.old }
        requires asks { MayAsk B.right B.key_of hand.old (Ask.Join t) }
        ensures joins { JoinsOnce B.key_of B.rooted_as self.old hand.old t result self.new hand.new }
        ensures right { NextRight B.right result }
        ensures leaves { LeavesWell self.new result }
        ensures fits { Fits self.new.store.past hand.new }
        ensures others { KeepsOthers hand.old.worker self.old.store.past self.new.store.past }
        ensures worker { hand.new.worker ≡ hand.old.worker }
    {
        match self.act(hand, Ask::Join(t)) {
            Told::Hear(answer) => Next::Turn(answer),
            Told::Run(u) => Next::Begin(u),
            Told::Skip(_, body) => skip(body, unneeded),
            Told::None => self.wait_for(alloc, hand.worker(), t),
            Told::Stuck(body) => self.leave_stuck(body, unneeded),
            // Only endings have other answers.
            _ => unreachable!(),
        }
    }

    /// An idle worker looks at the lanes, and polls.
    fn look_for_work(
        &mut self,
        alloc: Global,
        hand: &mut Hand<B>,
        unneeded: &mut Unneeded<B>,
    ) -> Next<B>
        requires fits { Fits self.old.store.past hand.old }
        requires idle { (hand.old.stack ≡ []) × (hand.old.hook ≡ None) }
        ensures looks { LooksForWork B.rooted_as self.old hand.old result self.new hand.new }
        ensures right { NextRight B.right result }
        ensures leaves { LeavesWell self.new result }
        ensures fits { Fits self.new.store.past hand.new }
        ensures others { KeepsOthers hand.old.worker self.old.store.past self.new.store.past }
        ensures worker { hand.new.worker ≡ hand.old.worker }
    {
        let _taken = self.look_at_lanes(alloc);
        self.poll_on(hand, unneeded)
    }

    /// An idle worker polls, and again if that skips a task: `MOST_SKIPPED` polls at most.
    #[inline(always)]
    fn poll_on(&mut self, hand: &mut Hand<B>, unneeded: &mut Unneeded<B>) -> Next<B>
        requires fits { Fits self.old.store.past hand.old }
        requires idle { (hand.old.stack ≡ []) × (hand.old.hook ≡ None) }
        ensures polls { PollsOn self.old hand.old result self.new hand.new }
        ensures right { NextRight B.right result }
        ensures leaves { LeavesWell self.new result }
        ensures fits { Fits self.new.store.past hand.new }
        ensures others { KeepsOthers hand.old.worker self.old.store.past self.new.store.past }
        ensures worker { hand.new.worker ≡ hand.old.worker }
    {
        match self.poll(hand) {
            Told::Run(t) => Next::Begin(t),
            Told::Skip(_, body) => {
                unneeded.add_skipped(body);
                self.poll_again(hand, unneeded)
            }
            Told::None => self.after_no_task(hand.worker()),
            Told::Stuck(body) => self.leave_stuck(body, unneeded),
            _ => unreachable!(),
        }
    }

    /// The same, after a task was skipped.
    #[inline(never)]
    fn poll_again(&mut self, hand: &mut Hand<B>, unneeded: &mut Unneeded<B>) -> Next<B>
        requires fits { Fits self.old.store.past hand.old }
        requires idle { (hand.old.stack ≡ []) × (hand.old.hook ≡ None) }
        ensures polls { PollsOn self.old hand.old result self.new hand.new }
        ensures right { NextRight B.right result }
        ensures leaves { LeavesWell self.new result }
        ensures fits { Fits self.new.store.past hand.new }
        ensures others { KeepsOthers hand.old.worker self.old.store.past self.new.store.past }
        ensures worker { hand.new.worker ≡ hand.old.worker }
    {
        for _skip in 2..MOST_SKIPPED {
            match self.poll(hand) {
                Told::Skip(_, body) => unneeded.add_skipped(body),
                told => return self.after_poll(hand, told, unneeded),
            }
        }
        let told = self.poll(hand);
        self.after_poll(hand, told, unneeded)
    }

    /// What an idle worker does after this answer to a poll.
    fn after_poll(&mut self, hand: &Hand<B>, told: Told<B>, unneeded: &mut Unneeded<B>) -> Next<B>
        requires { IsPolled self.old.store told }
        ensures next { NextOfPoll self.old told result }
        ensures right { NextRight B.right result }
        ensures leaves { LeavesWell self.new result }
        ensures same { self.new ≡ self.old }
    {
        match told {
            Told::Run(t) => Next::Begin(t),
            Told::Skip(_, body) => skip(body, unneeded),
            Told::None => self.after_no_task(hand.worker()),
            Told::Stuck(body) => self.leave_stuck(body, unneeded),
            _ => unreachable!(),
        }
    }

    /// No task is queued: the worker leaves if the pool has terminated, and wakes all others for that. If not, it rests.
    fn after_no_task(&mut self, worker: WorkerId) -> Next<B>
        ensures next { Then (next_idle (is_finished self.old)) self.old result self.new }
        ensures right { NextRight B.right result }
        ensures leaves { LeavesWell self.new result }
    {
        if self.core.is_terminated() {
            self.all_ended();
            Next::Leave(Ok(()))
        } else {
            self.rest(worker);
            Next::Rest
        }
    }

    /// No task was there for a body that helps or joins: one that helps hears so, one that joins waits.
    fn after_none(&mut self, alloc: Global, worker: WorkerId, joined: Option<Serial>) -> Next<B>
        ensures goes_on { WithoutTask B.rooted_as joined self.old result self.new }
        ensures right { NextRight B.right result }
        ensures leaves { LeavesWell self.new result }
    {
        match joined {
            Some(t) => self.wait_for(alloc, worker, t),
            None => Next::Turn(Heard::Helped(false)),
        }
    }

    /// The worker waits for a task. While a shutdown or a stop is pending it looks at the lanes first, as an idle worker does: the step is made
    /// with the last submission, and all workers may be waiting for tasks that only a stop ends.
    fn wait_for(&mut self, alloc: Global, worker: WorkerId, t: Serial) -> Next<B>
        ensures waits { Waits B.rooted_as t self.old result self.new }
        ensures right { NextRight B.right result }
        ensures leaves { LeavesWell self.new result }
    {
        if self.core.is_closing() && !self.core.machine().is_shut() {
            return self.look_and_wait(alloc, worker, t);
        }
        self.sleep_until(worker, t)
    }

    /// The worker looks at the lanes, and waits if nothing was taken in.
    fn look_and_wait(&mut self, alloc: Global, worker: WorkerId, t: Serial) -> Next<B>
        ensures waits { Waits B.rooted_as t self.old result self.new }
        ensures right { NextRight B.right result }
        ensures leaves { LeavesWell self.new result }
    {
        match self.look_at_lanes(alloc) {
            TakenIn::Nothing => self.sleep_until(worker, t),
            TakenIn::One => {
                self.task_queued();
                Next::Again
            }
            TakenIn::Several => Next::Again,
        }
    }

    /// The worker sleeps until this task is done, or another one is queued. If it is done, or the core is stuck, it goes on at once.
    fn sleep_until(&mut self, worker: WorkerId, t: Serial) -> Next<B>
        ensures { Then (next_asleep (is_joinable self.old t)) self.old result self.new }
    {
        if self.core.is_joinable(t) {
            self.core.wait_for(worker, t);
            Next::Wait
        } else {
            Next::Again
        }
    }

    /// The worker leaves; the call by which the core got stuck has woken all others. Precondition: the core is stuck.
    fn leave_stuck(&self, body: Option<B>, unneeded: &mut Unneeded<B>) -> Next<B>
        requires { self.now.store.stuck ≡ true }
        ensures { result ≡ Next.Leave (Err Refusal.LogFull) }
    {
        unneeded.add_ended(body);
        Next::Leave(Err(Refusal::LogFull))
    }
}

/// A task was skipped: its body is dropped later. The worker goes on looking.
fn skip<B: Body>(body: B, unneeded: &mut Unneeded<B>) -> Next<B>
    ensures { result ≡ Next.Again }
{
    unneeded.add_skipped(body);
    Next::Again
}

/// The task that this joins.
fn joined_by<B: Body>(ask: &Ask<B>) -> Option<Serial>
    ensures { result ≡ joined_of ask.now }
{
    match ask {
        Ask::Join(t) => Some(*t),
        _ => None,
    }
}

/// Notes which task the running body joins, or that it helps, if it asks that. A hook does neither.
fn note<B: Body>(hand: &mut Hand<B>, ask: &Ask<B>)
    ensures notes { hand.new ≡ noted hand.old ask.now }
    ensures worker { hand.new.worker ≡ hand.old.worker }
{
    if hand.hooked().is_some() {
        return;
    }
    match ask {
        Ask::Join(t) => hand.note_join(Some(*t)),
        Ask::Help => hand.note_join(None),
        _ => {}
    }
}
