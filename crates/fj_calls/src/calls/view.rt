use fj_body::Body;

/// A core that knows who sleeps, as contracts see it. `WakingCore` of `fj_wake` is one, and has the calls of all traits here.
///
/// They are traits so that the lock and its threads are proved beside the core, not after it; and several, since each call of what is over a
/// core proves anew that the core has the calls of its bounds. `Drop` is left to what drops a core, for the same reason. Java has no
/// counterpart.
pub trait CoreView<B: Body> {
    ghost use Rattle.fj_calls.specs.Cores.{CoreState};

    /// What contracts see of it.
    ghost state: { Self → CoreState B B.Key B.Out };
}
