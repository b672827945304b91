ghost use Rattle.std.specs.Prelude.{◌≡◌, ◌<◌, OnOk, OnErr, IfSome, length};
ghost use Rattle.fj_checker.specs.Remembered.{first_known, known_after, told_by};

use fj_rules::{Event, How, Kind, OutOfMemory, Status};

/// What is known of a task for good, be it kept or released.
#[derive(Clone, Copy, Debug)]
pub struct Known {
    /// What the task is.
    pub kind: Kind,
    /// The status that it got by an event of its own.
    pub settled: Option<Status>,
    /// Whether the end of its body fired it.
    pub completed: bool,
}

impl Known {
    /// A task that is accepted now.
    fn new(kind: Kind) -> Known
        ensures { result ≡ first_known kind }
    {
        Known {
            kind,
            settled: None,
            completed: false,
        }
    }
}

/// What is known after this event. An error only if out of memory; then nothing has changed. Precondition: the task of which the event
/// tells more is known.
pub fn know(known: &mut Vec<Known>, event: &Event) -> Result<(), OutOfMemory>
    requires { IfSome (told_by event.now) (λ t. t < length known.old.items) }
    ensures ok { OnOk result (known.new.items ≡ known_after known.old.items event.now) }
    ensures stays { OnErr result (known.new.items ≡ known.old.items) }
{
    match event {
        Event::Acc(_, _, kind) | Event::Make(_, kind) => known.push(Known::new(*kind))?,
        Event::Settle(t, status) => known[t.0 as usize].settled = Some(*status),
        Event::Fire(c, How::Complete) => known[c.0 as usize].completed = true,
        _ => {}
    }
    Ok(())
}
