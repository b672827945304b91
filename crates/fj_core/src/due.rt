ghost use Rattle.fj_calls.specs.Closes.{Dues, shut_step};
ghost use Rattle.fj_calls.specs.Closings.{is_due};
ghost use Rattle.fj_body.specs.Asking.{Shuts};

use fj_bodies::Store;
use fj_body::Body;
use fj_calls::Cutoff;

/// Makes the Shutdown or the Stop, if `taken_in` submissions reach the closing number, unless the store is stuck.
pub fn make_due<B: Body>(store: &mut Store<B>, closing: Cutoff, taken_in: usize)
    ensures { Dues (is_due closing.number taken_in) closing.stopping store.old store.new }
{
    if closing.is_due(taken_in) && !store.is_stuck() {
        let _made = shut(store, closing.stopping);
    }
}

/// Makes the Stop, or the Shutdown. False if the history is full: then the store is stuck.
fn shut<B: Body>(store: &mut Store<B>, stopping: bool) -> bool
    ensures { Shuts store.old (shut_step stopping) result store.new }
{
    if stopping {
        store.stop()
    } else {
        store.shutdown()
    }
}
