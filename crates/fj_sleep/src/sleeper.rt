ghost use Rattle.std.specs.Prelude.{◌≡◌};
ghost use Rattle.fj_sleep.specs.Places.{aim, is_asleep, is_awake, is_due, is_resting, is_waiting};

/// The state of a place, which belongs to one thread at a time.
#[derive(Clone, Copy, Debug, PartialEq)]
pub enum Sleeper<T> {
    /// Nobody sleeps here.
    Awake,
    /// The thread has nothing to do.
    Resting,
    /// The thread waits for this.
    Waiting(T),
    /// The thread that sleeps here is to be woken, once the lock is free.
    Due,
    /// The thread that slept here was woken, and is not back yet.
    Woken,
}

impl<T: Copy> Sleeper<T> {
    #[inline(always)]
    pub(crate) fn is_awake(&self) -> bool
        ensures { result ≡ is_awake self.now }
    {
        matches!(self, Sleeper::Awake)
    }

    #[inline(always)]
    pub(crate) fn rests(&self) -> bool
        ensures { result ≡ is_resting self.now }
    {
        matches!(self, Sleeper::Resting)
    }

    #[inline(always)]
    pub(crate) fn waits(&self) -> bool
        ensures { result ≡ is_waiting self.now }
    {
        matches!(self, Sleeper::Waiting(_))
    }

    #[inline(always)]
    pub(crate) fn is_asleep(&self) -> bool
        ensures { result ≡ is_asleep self.now }
    {
        matches!(self, Sleeper::Resting | Sleeper::Waiting(_))
    }

    #[inline(always)]
    pub(crate) fn is_due(&self) -> bool
        ensures { result ≡ is_due self.now }
    {
        matches!(self, Sleeper::Due)
    }

    /// What the thread waits for.
    #[inline(always)]
    pub(crate) fn aim(&self) -> Option<T>
        ensures { result ≡ aim self.now }
    {
        match self {
            Sleeper::Waiting(t) => Some(*t),
            _ => None,
        }
    }
}
