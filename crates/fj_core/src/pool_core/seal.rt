ghost use Rattle.std.specs.Prelude.{◌≡◌, [], ◌++◌, true, false};
ghost use Rattle.fj_rules.specs.Answers.{is_quiet};
ghost use Rattle.fj_calls.specs.Closings.{is_over};
ghost use Rattle.fj_calls.specs.Cores.{AreParts};
ghost use Rattle.fj_calls.specs.Sealing.{SealsCore, SealsPart, holds_back, is_without_memory, may_be_sealed};

use crate::pool_core::Core;
use fj_body::Body;
use fj_rules::{Refusal, Sealed};
use std::alloc::Global;

impl<B: Body> Core<B> {
    /// Seals the history since the last seal, and appends it to the kept parts: the history has room for its full limit of events again.
    /// Bodies, results, bookings and the closing number stay.
    ///
    /// Errors, after which nothing has changed, but for proofs the count of seals without memory: `LogFull` if the core is stuck; else `OutOfMemory` if the list of parts cannot grow; else
    /// `NotIdle` if the machine is not quiescent, `Closed` after a shutdown or a stop, `LogFull` if all events, the sealed ones too, and the
    /// seals are more than 2^62, or `OutOfMemory`. Java has no counterpart: it keeps no history.
    pub fn seal(&mut self, alloc: Global) -> Result<(), Refusal>
        ensures seals { SealsCore self.old result self.new }
        ensures pool { self.new.store.past.pool ≡ self.old.store.past.pool }
    {
        let answer = self.seal_part(alloc);
        if is_without_memory(&answer) {
            self.missed_seals = self.missed_seals.next();
        }
        answer
    }

    /// Seals a part and keeps it.
    fn seal_part(&mut self, alloc: Global) -> Result<(), Refusal>
        ensures seals { SealsPart self.old result self.new }
        ensures pool { self.new.store.past.pool ≡ self.old.store.past.pool }
    {
        if self.store.is_stuck() {
            return Err(Refusal::LogFull);
        }
        if self.archive.reserve().is_err() {
            return Err(Refusal::OutOfMemory);
        }
        let part = self.store.seal(alloc)?;
        self.archive.push(part);
        Ok(())
    }

    /// The parts that are kept, the oldest first. Appended to those that were handed out they are the history up to the last seal, with the
    /// tasks that were gone by then.
    pub fn parts(&self) -> &[Sealed]
        ensures parts { result.now ≡ self.now.parts }
        ensures history { AreParts (self.now.handed ++ self.now.parts) self.now.store.past }
    {
        self.archive.as_slice()
    }

    /// Hands out the kept parts, the oldest first: the next call begins where these end. Nothing else changes. It allocates nothing, and also
    /// answers if the core is stuck or shut.
    pub fn take_parts(&mut self, alloc: Global) -> Vec<Sealed>
        ensures parts { result.items ≡ self.old.parts }
        ensures handed { self.new ≡ record self.old { handed = self.old.handed ++ self.old.parts; parts = [] } }
        ensures history { AreParts self.new.handed self.new.store.past }
    {
        self.archive.take(alloc)
    }

    /// Whether a worker that looks for work seals first: the machine is quiescent and not shut, and the history since the last seal is longer
    /// than half its limit.
    pub fn is_seal_due(&self) -> bool
        ensures { result ≡ may_be_sealed self.now.store.past }
    {
        self.store.is_half_full() && !self.store.is_shut() && self.store.is_quiescent()
    }

    /// Whether nothing is to be taken in before the next seal, so that there is room for running tasks to end: the history since the last seal
    /// is longer than half its limit, and the machine is neither shut nor quiescent. Not if a Stop is pending: then everything is taken in.
    pub fn holds_back(&self) -> bool
        ensures holds { result ≡ holds_back self.now }
        ensures quiescent { is_quiet self.now.store.past.pool.limits self.now.store.past.events ≡ true → result ≡ false }
        ensures shut { is_over self.now.store.past.events ≡ true → result ≡ false }
        ensures stopping { self.now.closing.stopping ≡ true → result ≡ false }
    {
        self.store.is_half_full()
            && !self.store.is_shut()
            && !self.closing.stopping
            && !self.store.is_quiescent()
    }
}

/// Whether a seal was refused as out of memory.
fn is_without_memory(answer: &Result<(), Refusal>) -> bool
    ensures { result ≡ is_without_memory answer.now }
{
    matches!(answer, Err(Refusal::OutOfMemory))
}
