//! What the last events of a history mean for those who sleep.
ghost use Rattle.std.specs.Prelude.{◌≡◌, drop};
ghost use Rattle.std.specs.List.{list_any};
ghost use Rattle.fj_wake.specs.News.{ends_task, queues_task, takes};

use fj_calls::Intake;
use fj_rules::Event;

/// Whether a task is queued by one of the events from this one on.
#[inline(always)]
pub fn queues_any(events: &[Event]) -> bool
    ensures { result ≡ list_any queues_task events.now }
{
    events
        .iter()
        .any(|event| matches!(event, Event::Acc(_, _, _)))
}

/// Whether a task may have ended, or was released, by one of the events.
#[inline(always)]
pub fn ends_any(events: &[Event]) -> bool
    ensures { result ≡ list_any ends_task events.now }
{
    events.iter().any(|event| {
        matches!(event, Event::Settle(_, _) | Event::Stop | Event::Rel(_))
    })
}

/// The events from this place on.
#[inline(always)]
pub fn since(events: &[Event], place: usize) -> &[Event]
    ensures { result.now ≡ drop place events.now }
{
    if place < events.len() {
        &events[place..]
    } else {
        &[]
    }
}

/// Whether an intake took a parcel.
pub fn takes(answer: &Intake) -> bool
    ensures { result ≡ takes answer.now }
{
    matches!(answer, Intake::Took(_))
}
