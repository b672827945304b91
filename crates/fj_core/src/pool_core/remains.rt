ghost use Rattle.std.specs.Prelude.{◌≡◌, ◌++◌};
ghost use Rattle.fj_rules.specs.Epochs.{IsPast};
ghost use Rattle.fj_slots.specs.Shelves.{entries};
ghost use Rattle.fj_body.specs.Stores.{HasResults};
ghost use Rattle.fj_calls.specs.Booked.{AreBooked};
ghost use Rattle.fj_calls.specs.Cores.{AreParts};

use crate::pool_core::Core;
use fj_body::Body;
use fj_calls::Remains;

impl<B: Body> Core<B> {
    /// Takes the core apart. It allocates nothing, and drops the bodies that no worker holds.
    pub fn into_remains(self) -> Remains<B>
        ensures past { result.machine ≡ self.store.past }
        ensures results { entries result.results ≡ entries self.store.results }
        // No result was lost.
        ensures complete { HasResults self.store.past (entries self.store.results) self.store.taken }
        ensures drains { result.drains.items ≡ self.lanes }
        ensures bookings { result.bookings.bookings ≡ self.bookings }
        ensures handed { result.archive.handed ≡ self.handed }
        ensures parts { result.archive.kept ≡ self.parts }
        ensures run { IsPast self.store.past }
        ensures booked { AreBooked self.store.past self.lanes self.bookings }
        ensures history { AreParts (self.handed ++ self.parts) self.store.past }
    {
        let Core {
            store,
            drains,
            bookings,
            closing: _,
            archive,
            missed_seals: _,
        } = self;
        let (machine, results) = store.into_parts();
        Remains {
            machine,
            results,
            drains,
            bookings,
            archive,
        }
    }
}
