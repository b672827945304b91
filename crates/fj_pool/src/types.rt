//! The types of a pool with the core that a pool has.
use fj_wake::WakingCore;

/// All parts of a pool, before the caller picks a name for them.
pub type Parts<B> = fj_parts::Parts<B, WakingCore<B>>;

/// A pool: its core under one lock, and the condition variables.
pub type Pool<B, N> = fj_monitor::Pool<B, N, WakingCore<B>>;

/// An opened pool with its handles: a hand for each worker, a submitter for each submitter, and the closer.
pub type Opened<B, N> = fj_monitor::Opened<B, N, WakingCore<B>>;

/// A pool that no thread shares any more: nothing happens in it until it is wound up.
pub type Still<B, N> = fj_parts::Still<B, N, WakingCore<B>>;
