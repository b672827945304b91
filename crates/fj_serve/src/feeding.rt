ghost use Rattle.std.specs.Prelude.{◌≡◌, ◌+◌};
ghost use Rattle.fj_serve.specs.UnderWays.{how_many};

use crate::consumer::Consumer;
use crate::producer::Producer;
use crate::reported::told_of;
use crate::under_way::UnderWay;
use crate::window::Window;
use fj_run::{Body, Naming, Play, Refusal, Running, SubId};
use std::alloc::Global;
use std::sync::Wait;

/// How many outcomes are reported between two takes of sealed parts.
const TOLD_PER_LOOK: u64 = 4_096;

/// The player that feeds the pools of a service, one after another.
#[derive(Drop)]
pub struct Feeding<B: Body, P, C> {
    pub producer: P,
    pub consumer: C,
    pub window: Window,
    /// What is under way in the current pool.
    pub under_way: UnderWay,
    /// The submitter whose lane is filled now.
    pub lane: SubId,
    /// A body that came, but was not submitted yet.
    pub next: Option<B>,
    /// Whether the producer has ended.
    pub is_over: bool,
    /// How many bodies were submitted, and how many outcomes were reported.
    pub submitted: u64,
    pub told: u64,
    /// Why it cannot go on, if it cannot.
    pub refusal: Option<Refusal>,
    ghost counted: { told + how_many under_way ≡ submitted },
}

impl<B: Body, P: Drop, C: Drop> Feeding<B, P, C> {
    /// Nothing was submitted yet.
    pub fn new(alloc: Global, window: Window, producer: P, consumer: C) -> Feeding<B, P, C> {
        Feeding {
            producer,
            consumer,
            window,
            under_way: UnderWay::new(alloc, window),
            lane: SubId(0),
            next: None,
            is_over: false,
            submitted: 0,
            told: 0,
            refusal: None,
        }
    }
}

impl<B: Body, P: Producer<B>, C: Consumer<B>> Feeding<B, P, C> {
    /// The next body, if there is one.
    fn next_body(&mut self) -> Option<B>
        ensures { (self.new.submitted ≡ self.old.submitted) × (self.new.under_way ≡ self.old.under_way) }
    {
        if self.next.is_some() {
            return self.next.take();
        }
        if self.is_over {
            return None;
        }
        let next = self.producer.next();
        self.is_over = next.is_none();
        next
    }

    /// Submits the next body, if there is one. False if the window cannot be filled further.
    fn feed<N: Naming, R: Wait>(&mut self, pool: &mut Running<'_, '_, B, N, R>) -> bool {
        if self.submitted == u64::MAX {
            self.refusal = Some(Refusal::LaneSpent);
            return false;
        }
        if self.under_way.reserve().is_err() {
            self.refusal = Some(Refusal::OutOfMemory);
            return false;
        }
        let Some(body) = self.next_body() else {
            return false;
        };
        match pool.submit(self.lane, body) {
            Ok(ticket) => {
                self.under_way.push(ticket, self.submitted);
                self.submitted += 1;
                true
            }
            Err((refusal, body)) => {
                self.next = Some(body);
                refusal == Refusal::LaneSpent && self.change_lane(pool.submitters())
            }
        }
    }

    /// Goes on to the next of `lanes` lanes. False if there is none.
    fn change_lane(&mut self, lanes: usize) -> bool
        ensures { (self.new.submitted ≡ self.old.submitted) × (self.new.under_way ≡ self.old.under_way) }
    {
        match self.lane.0.checked_add(1) {
            Some(next) if (next as usize) < lanes => {
                self.lane = SubId(next);
                true
            }
            _ => false,
        }
    }

    /// Fills the window, unless it cannot go on.
    fn fill<N: Naming, R: Wait>(&mut self, pool: &mut Running<'_, '_, B, N, R>) {
        for _body in 0..u64::MAX {
            let has_room = self.under_way.len() < self.window.size() as usize;
            if self.refusal.is_some() || !has_room || !self.feed(pool) {
                return;
            }
        }
    }

    /// Waits for an outcome, and reports it. False if nothing is under way.
    fn tell<N: Naming, R: Wait>(&mut self, pool: &mut Running<'_, '_, B, N, R>) -> bool {
        let Some((nth, outcome)) = self.under_way.wait(pool, self.told) else {
            return false;
        };
        self.told += 1;
        if matches!(outcome, Err(Refusal::LogFull)) {
            self.refusal = Some(Refusal::LogFull);
        }
        self.consumer.hear(nth, told_of(outcome));
        if self.told % TOLD_PER_LOOK == 0 {
            for part in pool.take_parts() {
                self.consumer.take_part(part);
            }
        }
        true
    }
}

impl<B: Body, P: Producer<B>, C: Consumer<B>> Play<B> for Feeding<B, P, C> {
    /// Whether nothing is left to do, in any pool.
    type Out = bool;

    fn play<N: Naming, R: Wait>(&mut self, pool: &mut Running<'_, '_, B, N, R>) -> bool {
        self.lane = SubId(0);
        for _round in 0..u64::MAX {
            self.fill(pool);
            if !self.tell(pool) {
                break;
            }
        }
        self.is_over && self.next.is_none() && self.under_way.len() == 0
    }
}
