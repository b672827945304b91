ghost use Rattle.std.specs.Prelude.{◌≡◌, is_some};
ghost use Rattle.fj_calls.specs.Closes.{ShutsAt, closed_at, is_finished, stopped_at};

use crate::due::make_due;
use crate::pool_core::Core;
use fj_body::Body;
use fj_calls::Cutoff;

impl<B: Body> Core<B> {
    /// Makes the Shutdown as soon as `number` submissions are taken in, at once if they are: `ForkJoinPool.shutdown`.
    ///
    /// The first closing number stays. A stuck core makes no step.
    pub fn close_at(&mut self, number: u64)
        ensures shuts { ShutsAt self.old (closed_at self.old.closing number) self.new }
        ensures pool { self.new.store.past.pool ≡ self.old.store.past.pool }
    {
        self.closing = self.closing.at(number);
        make_due(&mut self.store, self.closing, self.bookings.len());
    }

    /// Makes the Stop as soon as `number` submissions are taken in, at once if they are, and also after a Shutdown: `ForkJoinPool.shutdownNow`.
    ///
    /// The first closing number stays. A stuck core makes no step.
    pub fn stop_at(&mut self, number: u64)
        ensures shuts { ShutsAt self.old (stopped_at self.old.closing number) self.new }
        ensures pool { self.new.store.past.pool ≡ self.old.store.past.pool }
    {
        self.closing = Cutoff {
            stopping: true,
            ..self.closing.at(number)
        };
        make_due(&mut self.store, self.closing, self.bookings.len());
    }

    /// Whether the closing number is known: a Shutdown or a Stop is to be made, or was.
    pub fn is_closing(&self) -> bool
        ensures { result ≡ is_some self.now.closing.number }
    {
        self.closing.number.is_some()
    }

    /// Whether the Shutdown or the Stop was made, the closing number is the number of submissions taken in, and the machine is quiescent:
    /// `ForkJoinPool.isTerminated`.
    pub fn is_terminated(&self) -> bool
        ensures { result ≡ is_finished self.now }
    {
        self.closing.number == Some(self.bookings.len() as u64)
            && self.store.is_shut()
            && self.store.is_quiescent()
    }
}
