ghost use Rattle.std.specs.Prelude.{◌≡◌, ◌<◌, Some, length};
ghost use Rattle.fj_queues.specs.Queues.{queue_at, with_queue};
ghost use Rattle.fj_ledger.specs.Sources.{queue_of, end_of, rest_of};

use fj_queues::Queues;
use fj_rules::Serial;

/// From which queue a task is taken, and from which end of it.
#[derive(Clone, Copy)]
pub enum QueueEnd {
    /// The oldest of the queue with this number.
    Oldest(usize),
    /// The newest of the queue with this number.
    Newest(usize),
}

/// Takes the task there. Precondition: there is such a queue, and it is not empty.
pub fn take_from(queues: &mut Queues, source: QueueEnd) -> Serial
    requires within { queue_of source < length queues.old.lists }
    requires filled { 0 < length (queue_at queues.old (queue_of source)) }
    ensures taken { Some result ≡ end_of source (queue_at queues.old (queue_of source)) }
    ensures rest { queues.new ≡ with_queue queues.old (queue_of source) (rest_of source (queue_at queues.old (queue_of source))) }
{
    match source {
        QueueEnd::Oldest(q) => queues.take_old(q).unwrap(),
        QueueEnd::Newest(q) => queues.take_new(q).unwrap(),
    }
}
