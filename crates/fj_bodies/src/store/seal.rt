ghost use Rattle.std.specs.Prelude.{◌≡◌, false};
ghost use Rattle.fj_rules.specs.Epochs.{IsPast};
ghost use Rattle.fj_slots.specs.Shelves.{entries};
ghost use Rattle.fj_body.specs.Sealing.{Seals, is_half_full};
ghost use Rattle.fj_body.specs.Releases.{NoneGoes};
ghost use Rattle.fj_body.specs.Stores.{HasResults};

use crate::store::Store;
use fj_body::{Body, KeptResult};
use fj_machine::Machine;
use fj_rules::{Refusal, Sealed};
use fj_slots::SerialMap;
use std::alloc::Global;

impl<B: Body> Store<B> {
    /// Hands out the history since the last seal, and goes on with an empty one. Bodies, results and marks stay, and task numbers go on.
    ///
    /// Errors, after which nothing has changed: `LogFull` if the store is stuck, else `NotIdle` if the machine is not quiescent, else `Closed`
    /// after a shutdown or a stop, else `LogFull` if all events, the sealed ones too, and the seals are more than 2^62, else `OutOfMemory`.
    pub fn seal(&mut self, alloc: Global) -> Result<Sealed, Refusal>
        ensures { Seals self.old result self.new }
    {
        if self.stuck {
            return Err(Refusal::LogFull);
        }
        self.machine.seal(alloc)
    }

    /// Whether the history since the last seal is longer than half its limit.
    pub fn is_half_full(&self) -> bool
        ensures { result ≡ is_half_full self.now.past }
    {
        let events = self.machine.limits().events() as usize;
        self.machine.history().len() > events / 2
    }

    /// The machine, and the results that were not taken, each under its task's number. The stored bodies are dropped.
    pub fn into_parts(self) -> (Machine, SerialMap<KeptResult<B>>)
        ensures past { result.0 ≡ self.past }
        ensures results { entries result.1 ≡ entries self.results }
        ensures complete { HasResults self.past (entries self.results) self.taken }
        ensures rests { self.stuck ≡ false → NoneGoes self.past.events self.taken }
        ensures run { IsPast self.past }
    {
        let Store {
            machine,
            bodies: _,
            results,
            taken: _,
            stuck: _,
        } = self;
        (machine, results)
    }
}
