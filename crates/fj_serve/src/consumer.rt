use crate::pool_record::PoolRecord;
use crate::reported::Reported;
use fj_run::{Body, Sealed};

/// Where the outcomes of a service go.
pub trait Consumer<B: Body> {
    /// What became of the nth body that came, counted from 0: called once for each.
    fn hear(&mut self, nth: u64, told: Reported<B::Key, B::Out>);

    /// A sealed part of the current pool's history. All parts of a pool come in order, before its record.
    fn take_part(&mut self, _part: Sealed) {}

    /// A pool has ended; this is left of it.
    fn take_record(&mut self, _record: PoolRecord) {}
}
