ghost use Rattle.std.specs.Prelude.{◌≡◌, length};
ghost use Rattle.fj_gate.specs.Ends.{ClosedBy, Watched};

use crate::naming::Naming;
use fj_gate::{Closing, Look};
use std::marker::{Model, PhantomData};

/// Shuts a pool down. There is one for each pool. Java has no counterpart: there any thread may.
#[derive(Drop)]
pub struct Closer<N: Naming> {
    end: fj_gate::Closer,
    of: PhantomData<N>,
}

impl<N: Naming> Model for Closer<N> {
    ghost use Rattle.std.specs.Prelude.{◌≡◌, length};
    ghost use Rattle.fj_gate.specs.Ends.{CloserState};

    ghost Value = { CloserState };

    ghost view = { λ c. c.end };

    ghost invariant = { λ c. record {
      gate : c.end.gate ≡ N.gate;
      submitters : c.end.submitters ≡ length N.lanes;
    } };
}

impl<N: Naming> Closer<N> {
    /// The end that closes the gate, under the name. Precondition: the name is that of its gate.
    pub fn new(end: fj_gate::Closer) -> Closer<N>
        requires gate { end.gate ≡ N.gate }
        requires submitters { end.submitters ≡ length N.lanes }
        ensures { result ≡ end }
    {
        Closer {
            end,
            of: PhantomData,
        }
    }

    /// The end without the name.
    pub fn into_end(self) -> fj_gate::Closer
        ensures end { result ≡ self }
        ensures gate { result.gate ≡ N.gate }
        ensures submitters { result.submitters ≡ length N.lanes }
    {
        self.end
    }

    /// Closes the gate only, by one atomic operation: what was admitted is still run, and the pool goes on until it is shut down. Takes no
    /// lock and never blocks.
    ///
    /// The first call returns `First` with the number of admissions, every later one `Already` with the same number.
    pub fn close(&mut self) -> Closing
        ensures { ClosedBy self.old result self.new }
    {
        self.end.close()
    }

    /// Queries the gate, by one load. `Open` has the number of admissions so far.
    pub fn look(&mut self) -> Look
        ensures { Watched self.old result self.new }
    {
        self.end.look()
    }
}
