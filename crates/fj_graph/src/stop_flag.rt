use std::sync::atomic::{AtomicBool, Ordering};

/// A flag that stops a run from outside. Once set, it stays set.
#[derive(Drop)]
pub struct StopFlag {
    flag: AtomicBool,
}

impl StopFlag {
    /// A flag that is not set.
    pub fn new() -> StopFlag {
        StopFlag {
            flag: AtomicBool::new(false),
        }
    }

    /// Sets it: each later check sees it.
    pub fn stop(&self) {
        self.flag.store(true, Ordering::SeqCst);
    }

    /// Whether it is set.
    pub fn is_stopped(&self) -> bool {
        self.flag.load(Ordering::SeqCst)
    }
}
