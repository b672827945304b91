ghost use Rattle.std.specs.Prelude.{◌≤◌};
ghost use Rattle.fj_sleep.specs.declared.contention.TheConstants.{MOST_PAUSES};

/// The scale of `held`: the lock was held at each try.
const COUNTED: u32 = 4_096;

/// The shortest wait before a retry, in pauses of the processor.
const FEWEST_PAUSES: u32 = 16;

/// The longest one, in pauses.
const MOST_PAUSES: u32 = 8_192;

/// How often the wait doubles, from a lock that was always free to one that was always held.
const DOUBLINGS: u32 = 9;

/// How often it doubles on top of that, while one thread retries.
const MORE_DOUBLINGS: u32 = 2;

/// How often a thread found the lock held lately: an exponential average, by which it backs off.
///
/// What a lock guards moves to another processor each time the lock changes hands, which takes longer than a short action. So workers that
/// contend for it all the time are slower together than one alone, and one that mostly finds it held retries less often.
#[derive(Drop)]
pub struct Contention {
    /// How many of `COUNTED` tries found it held; the latest count most.
    held: u32,
    ghost part: { held ≤ 4096 },
}

impl Contention {
    /// No contention yet.
    pub fn new() -> Contention {
        Contention { held: 0 }
    }

    /// The lock was free.
    pub fn find_free(&mut self) {
        self.held -= self.held / 8;
    }

    /// The lock was held, as at `before` tries in a row before. Returns how many pauses of the processor to wait before the next try, at
    /// most 8,192.
    pub fn find_held(&mut self, before: u32) -> u32
        ensures { result ≤ MOST_PAUSES }
    {
        self.held += (COUNTED - self.held) / 8;
        // Squared, since a lock that is held half of the time is free soon.
        let often = self.held * self.held / COUNTED;
        let doublings = often * DOUBLINGS / COUNTED + before.min(MORE_DOUBLINGS);
        (FEWEST_PAUSES << doublings).min(MOST_PAUSES)
    }
}
