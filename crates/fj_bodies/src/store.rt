ghost use Rattle.std.specs.Prelude.{◌≡◌, IfOk, [], true, false};
ghost use Rattle.fj_rules.specs.Epochs.{IsPast};
ghost use Rattle.fj_rules.specs.Pasts.{fresh};
ghost use Rattle.fj_slots.specs.Shelves.{entries, no_entries};
ghost use Rattle.fj_body.specs.Choosing.{TellsRefusal};
ghost use Rattle.fj_body.specs.Releases.{NoneGoes};

mod accept;
mod act;
mod ask;
mod choose;
mod collect;
mod end;
mod fits;
mod seal;
mod shut;

use fj_body::{Body, Heard, KeptResult, Told};
use fj_machine::Machine;
use fj_rules::{Limits, Mode, OutOfMemory, Refusal, both};
use fj_slots::{SerialMap, SerialSet};
use std::alloc::Global;
use std::marker::Model;

/// A machine, the bodies that no worker holds, the results that were not taken, and the tasks that wait for their release. In Java a task
/// is its body and holds its result, and is garbage once it has no references.
///
/// `act` serves what a body asks. If the machine refuses the step, the body hears that refusal, and nothing has changed. A stuck store
/// answers `Stuck`, returns a body that came, and changes nothing; the private calls of one ask each require that it is not stuck.
pub struct Store<B: Body> {
    machine: Machine,
    bodies: SerialMap<B>,
    results: SerialMap<KeptResult<B>>,
    /// Kept tasks whose outcome or result was taken: each is released as soon as it can be, by the call that makes it so.
    taken: SerialSet,
    stuck: bool,
}

// By hand: a derived one is proved in each crate that drops such a value.
impl<B: Body> Drop for Store<B> {
    fn drop(self) {
        let Store {
            machine: _,
            bodies: _,
            results: _,
            taken: _,
            stuck: _,
        } = self;
    }
}

impl<B: Body> Model for Store<B> {
    ghost use Rattle.fj_bodies.specs.DueTasks.{HoldsStore};
    ghost use Rattle.fj_body.specs.Stores.{StoreState};

    ghost Value = { StoreState B B.Key B.Out };

    ghost view = { λ s. record {
      past = s.machine;
      bodies = s.bodies;
      results = s.results;
      taken = s.taken.items;
      stuck = s.stuck;
    } };

    ghost invariant = { λ s. HoldsStore s.machine s.bodies s.results s.taken s.stuck };
}

impl<B: Body> Store<B> {
    /// A store in which nothing has happened. Allocates all memory except that of seals. `OutOfMemory` if an allocation fails.
    pub fn new(alloc: Global, mode: Mode, limits: Limits) -> Result<Store<B>, OutOfMemory>
        ensures past { IfOk result (λ s. s.past ≡ fresh mode limits) }
        ensures bodies { IfOk result (λ s. entries s.bodies ≡ no_entries) }
        ensures results { IfOk result (λ s. entries s.results ≡ no_entries) }
        ensures taken { IfOk result (λ s. s.taken ≡ []) }
        ensures free { IfOk result (λ s. s.stuck ≡ false) }
    {
        let room = limits.tasks() as usize;
        // For the proof: the limits are in range.
        let _workers = limits.workers();
        let maps = both(SerialMap::new(alloc, room), SerialMap::new(alloc, room));
        let rest = both(
            SerialSet::new(alloc, room),
            Machine::new(alloc, mode, limits),
        );
        let ((bodies, results), (taken, machine)) = both(maps, rest)?;
        Ok(Store {
            machine,
            bodies,
            results,
            taken,
            stuck: false,
        })
    }

    /// The machine, with its history. No taken task can be released, unless the store is stuck.
    pub fn machine(&self) -> &Machine
        ensures is { result.now ≡ self.now.past }
        ensures run { IsPast self.now.past }
        ensures rests { self.now.stuck ≡ false → NoneGoes self.now.past.events self.now.taken }
    {
        &self.machine
    }

    /// Whether it is stuck: the history had no room for a step that must be made.
    pub fn is_stuck(&self) -> bool
        ensures { result ≡ self.now.stuck }
    {
        self.stuck
    }

    /// The answer to a poll or an ending that the machine refused. If the history is full, the store gets stuck.
    pub(crate) fn refused(&mut self, refusal: Refusal) -> Told<B>
        ensures { TellsRefusal self.old refusal result self.new }
    {
        match refusal {
            Refusal::LogFull => {
                self.stuck = true;
                Told::Stuck(None)
            }
            other => Told::Hear(Heard::Refused(other)),
        }
    }

    /// Makes it stuck, permanently.
    pub fn stick(&mut self)
        ensures { self.new ≡ record self.old { stuck = true } }
    {
        self.stuck = true;
    }
}
