ghost use Rattle.std.specs.Prelude.{◌≡◌};
ghost use Rattle.fj_sleep.specs.Waking.{includes};

use crate::sleeper::Sleeper;

/// A selection of the threads that sleep.
#[derive(Clone, Copy)]
pub enum Whom {
    /// All that rest or wait.
    All,
    /// Those that wait.
    Waiting,
}

impl Whom {
    /// Whether a thread in this state is selected.
    #[inline(always)]
    pub fn includes<T: Copy>(&self, sleeper: &Sleeper<T>) -> bool
        ensures { result ≡ includes self.now sleeper.now }
    {
        match self {
            Whom::All => sleeper.is_asleep(),
            Whom::Waiting => sleeper.waits(),
        }
    }
}
