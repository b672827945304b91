use fj_rules::WorkerId;
use std::sync::atomic::{AtomicU64, Ordering};

/// What the bodies of one job share: which workers ask for work, where a final value is, and how many forks are left. The job's value does
/// not depend on it.
#[derive(Drop)]
pub struct Signals {
    /// Workers that ask for work, each by the bit of its number.
    asking: AtomicU64,
    /// The last place at which a body is needed.
    last: AtomicU64,
    /// How many halves may be forked yet.
    forks: AtomicU64,
}

impl Signals {
    /// New signals: no worker asks for work, each body is needed, and all bodies together may fork `forks` halves.
    pub fn new(forks: u64) -> Signals {
        Signals {
            asking: AtomicU64::new(0),
            last: AtomicU64::new(u64::MAX),
            forks: AtomicU64::new(forks),
        }
    }

    /// Worker `w` asks for work: it has nothing to do.
    pub fn ask(&self, w: WorkerId) {
        let bit = bit_of(w);
        // Most often it has asked before, and a load disturbs no other worker.
        if self.asking.load(Ordering::SeqCst) & bit == 0 {
            self.asking.fetch_or(bit, Ordering::SeqCst);
        }
    }

    /// Worker `w` has something to do.
    pub fn withdraw(&self, w: WorkerId) {
        let bit = bit_of(w);
        if self.asking.load(Ordering::SeqCst) & bit != 0 {
            self.asking.fetch_and(!bit, Ordering::SeqCst);
        }
    }

    /// Whether a body at this place is to stop: a worker asks for work, or the body is not needed.
    #[inline(always)]
    pub(crate) fn call(&self, place: u64) -> bool {
        self.asking.load(Ordering::SeqCst) != 0 || self.is_over(place)
    }

    /// Takes the request of the lowest worker that asks for work. None only where nobody asks.
    pub(crate) fn take(&self) -> Option<WorkerId> {
        let asked = self.asking.fetch_update(
            Ordering::SeqCst,
            Ordering::SeqCst,
            |asking| asking.checked_sub(1).map(|less| asking & less),
        );
        match asked {
            Ok(asking) => Some(WorkerId(asking.trailing_zeros())),
            Err(_) => None,
        }
    }

    /// Takes one of the forks that are left. False where there is none.
    pub(crate) fn take_fork(&self) -> bool {
        self.forks
            .fetch_update(
                Ordering::SeqCst,
                Ordering::SeqCst,
                |forks| forks.checked_sub(1),
            )
            .is_ok()
    }

    /// Gives a fork back that was refused.
    pub(crate) fn give_fork_back(&self) {
        self.forks.fetch_add(1, Ordering::SeqCst);
    }

    /// No body beyond this place is needed: a final value is there.
    pub(crate) fn finish(&self, last: u64) {
        self.last.fetch_min(last, Ordering::SeqCst);
    }

    /// Whether a body at this place is not needed.
    #[inline(always)]
    pub(crate) fn is_over(&self, place: u64) -> bool {
        self.last.load(Ordering::SeqCst) < place
    }
}

/// The bit of a worker. There are at most 32.
fn bit_of(w: WorkerId) -> u64 {
    1 << (w.0 % 64)
}
