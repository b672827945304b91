ghost use Rattle.std.specs.Prelude.{◌≡◌, ◌≢◌, ◌≤◌, ◌<◌, ◌↔◌, IsTrue, IfOk, IfSome, MatchOption, Some, None, false, length, replicate, slice_index_or, slice_set};
ghost use Rattle.fj_sleep.specs.declared.places.TheConstants.{MAX_PLACES};
ghost use Rattle.fj_sleep.specs.Places.{aim, is_awake, is_due, is_waiting};
ghost use Rattle.fj_sleep.specs.Sleeping.{IsAt, NobodyIs};
ghost use Rattle.fj_sleep.specs.Waking.{PassesOn, with_resting};

mod choice;
mod waking;

use crate::places::MAX_PLACES;
use crate::sleeper::Sleeper;
use choice::any_resting;
use std::alloc::{AllocError, Global};
use std::marker::Model;

/// The threads that may sleep, each at a place of its own. One of those that rest is the lookout: it looks for work now and then, and the
/// others sleep until they are woken. A call with a place out of range changes nothing.
#[derive(Drop)]
pub struct Sleepers<T: Copy> {
    pub(crate) places: Vec<Sleeper<T>>,
    pub(crate) lookout: Option<usize>,
    /// If false, nobody waits.
    waiting: bool,
    /// If false, nobody rests.
    resting: bool,
    /// If false, nobody is due.
    due: bool,
}

impl<T: Copy> Model for Sleepers<T> {
    ghost use Rattle.fj_sleep.specs.Sleeping.{AreNoted, SleepState};

    ghost Value = { SleepState T };

    ghost view = { λ s. record { places = s.places.items; lookout = s.lookout } };

    ghost invariant = { λ s. AreNoted s.places.items s.lookout s.waiting s.resting s.due };
}

impl<T: Copy> Sleepers<T> {
    /// `places` places, all `Awake`. An error only if out of memory. Precondition: at most `MAX_PLACES`.
    pub fn new(alloc: Global, places: usize) -> Result<Sleepers<T>, AllocError>
        requires { places ≤ MAX_PLACES }
        ensures { IfOk result (λ s. s ≡ record { places = replicate places Sleeper.Awake; lookout = None }) }
    {
        Ok(Sleepers {
            places: vec![in alloc; Sleeper::Awake; places]?,
            lookout: None,
            waiting: false,
            resting: false,
            due: false,
        })
    }

    /// How many places there are.
    #[inline(always)]
    pub fn len(&self) -> usize
        ensures { result ≡ length self.now.places }
    {
        self.places.len()
    }

    /// A place that is `Awake`; none only if no place is.
    pub fn free_place(&self) -> Option<usize>
        ensures free { MatchOption result (NobodyIs is_awake self.now.places) (λ p. IsAt is_awake self.now.places p) }
        ensures few { IfSome result (λ p. p < MAX_PLACES) }
    {
        choice::any_awake(&self.places)
    }

    /// Whether somebody may wait. False only if nobody does.
    #[inline(always)]
    pub fn waits(&self) -> bool
        ensures { result ≡ false → NobodyIs is_waiting self.now.places }
    {
        self.waiting
    }

    /// Whether somebody may be due. False only if nobody is.
    #[inline(always)]
    pub fn may_be_due(&self) -> bool
        ensures { result ≡ false → NobodyIs is_due self.now.places }
    {
        self.due
    }

    /// The state of this place; `Awake` if it is out of range.
    pub fn state(&self, place: usize) -> Sleeper<T>
        ensures { result ≡ slice_index_or self.now.places place Sleeper.Awake }
    {
        if place < self.places.len() {
            self.places[place]
        } else {
            Sleeper::Awake
        }
    }

    /// What the thread at this place waits for; none if it does not wait.
    #[inline(always)]
    pub fn waited_for(&self, place: usize) -> Option<T>
        ensures { result ≡ aim (slice_index_or self.now.places place Sleeper.Awake) }
    {
        if place < self.places.len() {
            self.places[place].aim()
        } else {
            None
        }
    }

    /// Whether this is the place of the lookout.
    #[inline(always)]
    pub fn is_lookout(&self, place: usize) -> bool
        ensures { IsTrue result ↔ (self.now.lookout ≡ Some place) }
    {
        match self.lookout {
            Some(lookout) => lookout == place,
            None => false,
        }
    }

    /// The thread at this place has nothing to do. It becomes the lookout if there is none.
    #[inline(always)]
    pub fn rest(&mut self, place: usize)
        ensures there { place < length self.old.places → self.new ≡ with_resting self.old place }
        ensures beyond { length self.old.places ≤ place → self.new ≡ self.old }
    {
        if place < self.places.len() {
            self.places[place] = Sleeper::Resting;
            self.resting = true;
            self.lookout = match self.lookout {
                Some(lookout) => Some(lookout),
                None => Some(place),
            };
        }
    }

    /// The thread at this place waits for `t`.
    #[inline(always)]
    pub fn wait(&mut self, place: usize, t: T)
        ensures { self.new ≡ record self.old { places = slice_set self.old.places place (Sleeper.Waiting t) } }
    {
        if place < self.places.len() {
            self.places[place] = Sleeper::Waiting(t);
            self.waiting = true;
        }
    }

    /// The thread at this place is back from its sleep. A lookout stays the lookout, since it looks now.
    #[inline(always)]
    pub fn come_back(&mut self, place: usize)
        ensures { self.new ≡ record self.old { places = slice_set self.old.places place Sleeper.Awake } }
    {
        if place < self.places.len() {
            self.places[place] = Sleeper::Awake;
        }
    }

    /// The thread at this place has something to do. If it was the lookout, another one that rests takes the role and is to be woken, so that
    /// it looks more often. If nobody rests, there is no lookout.
    #[inline(always)]
    pub fn begin(&mut self, place: usize)
        ensures lookout { self.old.lookout ≡ Some place → PassesOn self.old self.new }
        ensures other { self.old.lookout ≢ Some place → self.new ≡ self.old }
    {
        if self.is_lookout(place) {
            self.pass_on();
        }
    }

    /// Passes the role of the lookout to a thread that rests, if there is one.
    #[inline(never)]
    fn pass_on(&mut self)
        ensures { PassesOn self.old self.new }
    {
        match any_resting(&self.places) {
            Some(next) => {
                self.places[next] = Sleeper::Due;
                self.lookout = Some(next);
                self.due = true;
            }
            None => {
                self.lookout = None;
                self.resting = false;
            }
        }
    }
}
