//! The types of a pool with the core that a pool has.
use fj_wake::WakingCore;

/// All parts of a pool, before it has a name.
pub type Parts<B> = fj_parts::Parts<B, WakingCore<B>>;

/// A pool.
pub type Pool<B, N> = fj_monitor::Pool<B, N, WakingCore<B>>;
