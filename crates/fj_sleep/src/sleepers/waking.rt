//! Which threads are woken.
ghost use Rattle.std.specs.Prelude.{◌≡◌, ◌≤◌, ◌↔◌, false, map, IfNone, IfSome, IsNone, OnSome, length, slice_index_or, slice_set};
ghost use Rattle.fj_sleep.specs.Places.{is_asleep, is_due, is_resting, is_waiting, roused_if, taken};
ghost use Rattle.fj_sleep.specs.Sleeping.{NobodyIs};
ghost use Rattle.fj_sleep.specs.Waking.{AreDue, WakesOne, includes, with_roused};

use super::Sleepers;
use super::choice::{any_due, anyone};
use crate::places::{MAX_PLACES, Places};
use crate::sleeper::Sleeper;
use crate::whom::Whom;

/// Which states occur.
#[derive(Clone, Copy)]
struct Kinds {
    waiting: bool,
    resting: bool,
    due: bool,
}

impl<T: Copy> Sleepers<T> {
    /// Marks the thread that sleeps at this place, if one does, as to be woken.
    #[inline(always)]
    pub fn wake(&mut self, place: usize)
        ensures { self.new ≡ with_roused self.old place }
    {
        if place < self.places.len() && self.places[place].is_asleep() {
            self.places[place] = Sleeper::Due;
            self.due = true;
        }
    }

    /// Something was queued that any thread may take: marks one that sleeps. It is one that rests, if there is one, and not the lookout, if
    /// another one rests.
    #[inline(always)]
    pub fn wake_one(&mut self)
        ensures { WakesOne self.old self.new }
    {
        if self.resting || self.waiting {
            self.rouse_one();
        }
    }

    /// The same, if somebody may sleep.
    #[inline(never)]
    fn rouse_one(&mut self)
        ensures { WakesOne self.old self.new }
    {
        match anyone(&self.places, self.lookout) {
            Some(place) => {
                self.places[place] = Sleeper::Due;
                self.due = true;
            }
            None => {
                self.resting = false;
                self.waiting = false;
            }
        }
    }

    /// The places that are due; now they count as woken. None if nobody is due.
    #[inline(always)]
    pub fn take_due(&mut self) -> Option<Places>
        ensures none { IsNone result ↔ NobodyIs is_due self.old.places }
        ensures same { IfNone result (self.new ≡ self.old) }
        ensures due { IfSome result (λ due. AreDue due self.old.places) }
        ensures woken { OnSome result (self.new ≡ record self.old { places = map taken self.old.places }) }
    {
        if self.due { self.take_all_due() } else { None }
    }

    /// The same, if somebody may be due.
    #[inline(never)]
    fn take_all_due(&mut self) -> Option<Places>
        ensures none { IsNone result ↔ NobodyIs is_due self.old.places }
        ensures same { IfNone result (self.new ≡ self.old) }
        ensures due { IfSome result (λ due. AreDue due self.old.places) }
        ensures woken { OnSome result (self.new ≡ record self.old { places = map taken self.old.places }) }
    {
        self.due = false;
        match any_due(&self.places) {
            Some(_) => {
                let chosen = take_each_due(&mut self.places);
                Some(Places { chosen })
            }
            None => None,
        }
    }

    /// Marks all threads that wait.
    #[inline(always)]
    pub fn wake_waiting(&mut self)
        ensures { self.new ≡ record self.old { places = map (roused_if is_waiting) self.old.places } }
    {
        if self.waiting {
            self.rouse(Whom::Waiting);
        }
    }

    /// Marks all threads that rest or wait.
    #[inline(always)]
    pub fn wake_all(&mut self)
        ensures { self.new ≡ record self.old { places = map (roused_if is_asleep) self.old.places } }
    {
        if self.waiting || self.resting {
            self.rouse(Whom::All);
        }
    }

    /// Marks these.
    #[inline(never)]
    fn rouse(&mut self, whom: Whom)
        ensures { self.new ≡ record self.old { places = map (roused_if (includes whom)) self.old.places } }
    {
        let kinds = rouse_each(&mut self.places, whom);
        self.waiting = kinds.waiting;
        self.resting = kinds.resting;
        self.due = kinds.due;
    }
}

/// Marks these. Returns which states occur afterwards.
fn rouse_each<T: Copy>(places: &mut [Sleeper<T>], whom: Whom) -> Kinds
    ensures places { places.new ≡ map (roused_if (includes whom)) places.old }
    ensures waiting { result.waiting ≡ false → NobodyIs is_waiting places.new }
    ensures resting { result.resting ≡ false → NobodyIs is_resting places.new }
    ensures due { result.due ≡ false → NobodyIs is_due places.new }
{
    let mut kinds = Kinds {
        waiting: false,
        resting: false,
        due: false,
    };
    for place in 0..places.len() {
        if whom.includes(&places[place]) {
            places[place] = Sleeper::Due;
        }
        let sleeper = places[place];
        kinds.waiting |= sleeper.waits();
        kinds.resting |= sleeper.rests();
        kinds.due |= sleeper.is_due();
    }
    kinds
}

/// Turns each `Due` into `Woken`, and returns their places. Precondition: there are at most `MAX_PLACES` places.
fn take_each_due<T: Copy>(places: &mut [Sleeper<T>]) -> [bool; MAX_PLACES]
    requires { length places.old ≤ MAX_PLACES }
    ensures due { AreDue result places.old }
    ensures woken { places.new ≡ map taken places.old }
{
    let mut chosen = [false; MAX_PLACES];
    for place in 0..places.len() {
        if places[place].is_due() {
            places[place] = Sleeper::Woken;
            chosen[place] = true;
        }
    }
    chosen
}
