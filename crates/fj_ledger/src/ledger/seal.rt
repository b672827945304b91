//! The history is handed out.
ghost use Rattle.std.specs.Prelude.{◌≡◌, None, IfOk, OnOk, OnErr, IfErr};
ghost use Rattle.fj_rules.specs.Pasts.{present, gone_since, sealed_now};
ghost use Rattle.fj_rules.specs.Epochs.{seal_refusal, RefusesSeal};

use crate::ledger::Ledger;
use fj_rules::{Refusal, Sealed};
use std::alloc::Global;

impl Ledger {
    /// How many seals there were.
    pub fn seals(&self) -> u64
        ensures { result ≡ self.now.seals }
    {
        self.log.seals()
    }

    /// A checkpoint: hands out the events since the last seal, and goes on without events. The kept tasks stay.
    ///
    /// Refused, with nothing changed, as `NotIdle` where the ledger is not quiescent, else `Closed` after a shutdown or a stop, else
    /// `LogFull` where the events, sealed or not, and the seals together are more than 2^62, else `OutOfMemory` where an allocation fails.
    pub fn seal(&mut self, alloc: Global) -> Result<Sealed, Refusal>
        ensures events { IfOk result (λ part. part.events.items ≡ present self.old) }
        ensures gone { IfOk result (λ part. part.gone.items ≡ gone_since self.old) }
        ensures may { OnOk result (seal_refusal self.old ≡ None) }
        ensures sealed { OnOk result (self.new ≡ sealed_now self.old) }
        ensures err { IfErr result (λ refusal. RefusesSeal self.old refusal) }
        ensures stays { OnErr result (self.new ≡ self.old) }
    {
        if let Some(refusal) = self.seal_refusal() {
            return Err(refusal);
        }
        // First what can fail, then what changes anything.
        let gone = Vec::from_slice(alloc, self.gone.as_slice())?;
        let events = self.log.seal(alloc)?;
        self.gone.clear();
        Ok(Sealed { events, gone })
    }

    /// Why a seal is refused before anything is allocated, if it is: not quiescent, shut, or too many events.
    pub fn seal_refusal(&self) -> Option<Refusal>
        ensures { result ≡ seal_refusal self.now }
    {
        if !self.is_quiet() {
            return Some(Refusal::NotIdle);
        }
        if self.is_shut() {
            return Some(Refusal::Closed);
        }
        if self.log.is_worn() {
            return Some(Refusal::LogFull);
        }
        None
    }
}
