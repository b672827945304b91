ghost use Rattle.std.specs.Prelude.{◌≡◌, ◌↔◌, ◌<◌, ◌∷◌, ◌++◌, [], IsOk, IfOk, IfErr, OnOk, OnErr, None, Some, MatchOption, true, false};
ghost use Rattle.fj_rules.specs.Lists.{is_in};
ghost use Rattle.fj_rules.specs.Tasks.{tasks, accepted, is_completer};
ghost use Rattle.fj_rules.specs.Hooks.{goes_to, hand, hooks};
ghost use Rattle.fj_rules.specs.Allowed.{Allowed, AllowedFrom};
ghost use Rattle.fj_rules.specs.Follows.{Follows, NamesCompleter, HasHand};
ghost use Rattle.fj_rules.specs.Pasts.{fresh, grown, limit, sealed_now};
ghost use Rattle.fj_rules.specs.Epochs.{seal_refusal, RefusesSeal};
ghost use Rattle.fj_checker.specs.Remembered.{IsHandOf, Knows, ended_in};
ghost use Rattle.fj_rules.specs.declared.event.Event.TheVariants.{Fire, Hooked};

use crate::going::go_on;
use crate::known::{Known, know};
use crate::objection::Objection;
use crate::rules::accepts::{may_accept, may_make};
use crate::rules::climbs::{may_add, may_complete, may_count, may_fire};
use crate::rules::ends::may_end;
use crate::rules::hands::holder;
use crate::rules::settles::{is_end_of, may_settle};
use crate::rules::shuts::{may_close, may_release, may_stop};
use crate::rules::takes::{may_hand_out, may_skip};
use fj_ledger::Ledger;
use fj_rules::{Event, How, Limits, Mode, OutOfMemory, Refusal, Serial, WorkerId};
use std::alloc::Global;
use std::marker::Model;

/// A history, with all that tells which events follow it. Contracts see the history.
#[derive(Drop)]
pub struct Checker {
    ledger: Ledger,
    // of each accepted task, by its number
    known: Vec<Known>,
    newest: Option<Event>,
    // the worker whose completion action ended last
    last_worker: Option<WorkerId>,
}

impl Model for Checker {
    ghost use Rattle.fj_rules.specs.Pasts.{Past};
    ghost use Rattle.fj_checker.specs.Remembered.{Remembers};

    ghost Value = { Past };

    ghost view = { λ c. c.ledger };

    ghost invariant = { λ c. Remembers c.ledger.events c.known.items c.newest c.last_worker };
}

impl Checker {
    /// Before anything has happened in such a pool. An error only if out of memory.
    pub fn new(alloc: Global, mode: Mode, limits: Limits) -> Result<Checker, OutOfMemory>
        ensures { IfOk result (λ c. c ≡ fresh mode limits) }
    {
        Ok(Checker {
            ledger: Ledger::new(alloc, mode, limits)?,
            known: Vec::new(alloc),
            newest: None,
            last_worker: None,
        })
    }

    /// Whether the event follows; otherwise why it does not.
    pub fn may_follow(&self, event: &Event) -> Result<(), Objection>
        ensures follows { IsOk result ↔ Follows self.now event.now }
        // Each event so far was allowed where it stands.
        ensures lawful { AllowedFrom self.now.pool [] self.now.events }
    {
        // For the proof: the history of a ledger is lawful.
        let _lawful = self.ledger.is_stopped();
        if let Err(objection) = self.rule(event) {
            return Err(self.precise(objection));
        }
        if !self.ledger.has_room(1) {
            return Err(Objection::Full(self.ledger.limits().events()));
        }
        Ok(())
    }

    /// The objection to a task that the ledger does not have: it was never accepted, if it was not released.
    fn precise(&self, objection: Objection) -> Objection {
        match objection {
            Objection::Released(t) | Objection::NotQueued(t) => {
                if t >= self.accepted() {
                    Objection::Unknown(t)
                } else {
                    objection
                }
            }
            other => other,
        }
    }

    /// The same, but for the room.
    fn rule(&self, event: &Event) -> Result<(), Objection>
        ensures { IsOk result ↔ (Allowed self.now.pool self.now.events event.now × NamesCompleter self.now.events event.now × HasHand self.now.pool self.now.events event.now) }
    {
        let ledger = &self.ledger;
        match event {
            Event::Acc(t, owner, kind) => may_accept(ledger, self.accepted(), *t, owner, kind),
            Event::Make(t, kind) => may_make(ledger, self.accepted(), *t, kind),
            Event::Out(t, w) => may_hand_out(ledger, *t, *w),
            Event::Skip(t, w) => may_skip(ledger, *t, *w),
            Event::End(t, w) => may_end(ledger, *t, *w),
            Event::Add(c, n) => may_add(ledger, *c, *n),
            Event::Dec(c) => may_count(ledger, *c),
            Event::Fire(c, how) => self.may_hand_hook(*c, *how),
            Event::Pass(c) => may_fire(ledger, *c),
            Event::Hooked(c) => self.may_end_hook(*c),
            Event::Settle(t, status) => {
                may_settle(ledger, *t, *status, self.known(*t), &self.newest)
            }
            Event::Close => may_close(ledger),
            Event::Stop => may_stop(ledger),
            Event::Rel(t) => may_release(ledger, *t),
        }
    }

    /// How many tasks were accepted.
    fn accepted(&self) -> u64
        ensures { result ≡ accepted self.now.events }
    {
        self.known.len() as u64
    }

    /// What is known of a task. None if it was never accepted.
    fn known(&self, t: Serial) -> Option<&Known>
        ensures { MatchOption result (is_in t (tasks self.now.events) ≡ false) (λ k. (is_in t (tasks self.now.events) ≡ true) × Knows self.now.events t k.now) }
    {
        // For the proof: the tasks of a ledger are numbered in order.
        let _lawful = self.ledger.is_stopped();
        let number = t.0 as usize;
        if number >= self.known.len() {
            return None;
        }
        Some(&self.known[number])
    }

    /// The task whose body has just ended, and the worker.
    fn just_ended(&self) -> Option<(Serial, WorkerId)>
        ensures { result ≡ (hooks self.now.events).just_ended }
    {
        match &self.newest {
            Some(event) => ended_by(event),
            None => None,
        }
    }

    /// The worker into whose hand the hook of a completer goes if it is handed out now.
    fn receiver(&self, c: Serial) -> Option<WorkerId>
        ensures { result ≡ goes_to self.now.events c }
    {
        let Some((t, w)) = self.just_ended() else {
            return self.last_worker;
        };
        if t == c {
            return Some(w);
        }
        self.last_worker
    }

    /// The hook of a completer is handed out.
    fn may_hand_hook(&self, c: Serial, how: How) -> Result<(), Objection>
        ensures { IsOk result ↔ (Allowed self.now.pool self.now.events (Fire c how) × NamesCompleter self.now.events (Fire c how) × HasHand self.now.pool self.now.events (Fire c how)) }
    {
        self.may_fire(c, how)?;
        self.may_receive(c)
    }

    /// The completer fires.
    fn may_fire(&self, c: Serial, how: How) -> Result<(), Objection>
        ensures { IsOk result ↔ (Allowed self.now.pool self.now.events (Fire c how) × (is_completer self.now.events c ≡ true)) }
    {
        match how {
            How::Zero => may_fire(&self.ledger, c),
            How::Complete => may_complete(&self.ledger, c, is_end_of(&self.newest, c)),
        }
    }

    /// The hand into which the hook goes is free.
    fn may_receive(&self, c: Serial) -> Result<(), Objection>
        ensures { (how : How) → IsOk result ↔ HasHand self.now.pool self.now.events (Fire c how) }
    {
        let Some(w) = self.receiver(c) else {
            return Err(Objection::NobodyFires(c.0));
        };
        if !self.ledger.has_worker(w) {
            return Err(Objection::NoWorker(w.0));
        }
        if let Some(hook) = self.ledger.hook(w) {
            return Err(Objection::HookInHand(w.0, hook.completer.0));
        }
        Ok(())
    }

    /// Goes on by the event. An error only if out of memory; then nothing has changed. Precondition: the event follows.
    pub fn append(&mut self, event: &Event) -> Result<(), OutOfMemory>
        requires { Follows self.old event.now }
        ensures ok { OnOk result (self.new ≡ grown self.old (event.now ∷ [])) }
        ensures stays { OnErr result (self.new ≡ self.old) }
    {
        // For the proof: the history of a ledger is lawful.
        let _lawful = self.ledger.is_stopped();
        let hand = self.hand_of(event);
        let last_worker = self.last_after(event, &hand);
        know(&mut self.known, event)?;
        go_on(&mut self.ledger, event, hand);
        self.newest = Some(*event);
        self.last_worker = last_worker;
        Ok(())
    }

    /// The worker into whose hand the event puts a hook, or out of whose hand it takes one.
    fn hand_of(&self, event: &Event) -> Option<WorkerId>
        ensures { IsHandOf self.now.pool self.now.events event.now result }
    {
        match event {
            Event::Fire(c, _) => self.receiver(*c),
            Event::Hooked(c) => holder(&self.ledger, *c),
            _ => None,
        }
    }

    /// The worker whose hook ended last after the event, where this is the worker of its hook.
    fn last_after(&self, event: &Event, hand: &Option<WorkerId>) -> Option<WorkerId>
        requires follows { Follows self.now event.now }
        requires hand { IsHandOf self.now.pool self.now.events event.now hand.now }
        ensures { result ≡ (hooks (self.now.events ++ event.now ∷ [])).last_worker }
    {
        // For the proof: no hook is in two hands.
        let _lawful = self.ledger.is_stopped();
        match event {
            Event::Hooked(_) => *hand,
            _ => self.last_worker,
        }
    }

    /// Whether a part may be sealed here; otherwise why not.
    pub fn may_seal(&self) -> Result<(), Objection>
        ensures { IsOk result ↔ (seal_refusal self.now ≡ None) }
    {
        match self.ledger.seal_refusal() {
            None => Ok(()),
            Some(Refusal::NotIdle) => Err(Objection::NotQuiescent),
            Some(Refusal::Closed) => Err(Objection::Closed),
            Some(_) => Err(Objection::TooManySeals),
        }
    }

    /// A part is sealed here. An error only if out of memory; then nothing has changed. Precondition: it may be sealed.
    pub fn seal(&mut self, alloc: Global) -> Result<(), OutOfMemory>
        requires { seal_refusal self.old ≡ None }
        ensures ok { OnOk result (self.new ≡ sealed_now self.old) }
        ensures stays { OnErr result (self.new ≡ self.old) }
    {
        match self.ledger.seal(alloc) {
            Ok(_) => Ok(()),
            Err(_) => Err(OutOfMemory),
        }
    }

    /// The end of a hook: it is in a hand.
    fn may_end_hook(&self, c: Serial) -> Result<(), Objection>
        ensures { IsOk result ↔ Allowed self.now.pool self.now.events (Hooked c) }
    {
        if holder(&self.ledger, c).is_none() {
            return Err(Objection::InNoHand(c.0));
        }
        Ok(())
    }
}

/// The task whose body ends by this event, and the worker.
fn ended_by(event: &Event) -> Option<(Serial, WorkerId)>
    ensures { result ≡ ended_in (Some event.now) }
{
    match event {
        Event::End(t, w) => Some((*t, *w)),
        _ => None,
    }
}
