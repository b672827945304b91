ghost use Rattle.std.specs.Prelude.{◌≡◌};
ghost use Rattle.fj_codes.specs.Events.{event_of, happened, acc_code, how_code, kind_codes, comes};

use crate::codes::{
    ACC_SUB, ACC_WORK, ADD, CLOSE, COMPLETER, DEC, END, FIRE_COMPLETE, FIRE_ZERO, HOOKED, MAKE,
    NO_TASK, OUT, PASSED, PLAIN, REL, RELAYING, SETTLE, SKIPPED, STOPPED,
};
use crate::replies::status_number;
use fj_rules::{Event, How, InnerTypes, Kind, Owner, Serial};

/// An event, in numbers.
#[repr(C)]
#[derive(Clone, Copy)]
pub struct Happened {
    pub what: u32,
    /// A submitter or a worker.
    pub by: u32,
    pub kind: u32,
    pub task: u64,
    /// A count or a status.
    pub value: u64,
    pub parent: u64,
}

impl Happened {
    /// The numbers of an event.
    pub fn of(event: &Event) -> Happened
        ensures { result ≡ event_of event.now }
    {
        let _inside: Option<InnerTypes> = None;
        match *event {
            Event::Acc(t, owner, kind) => {
                let (what, by) = acc_code(owner);
                Happened::accepted(what, by, t, kind)
            }
            Event::Make(t, kind) => Happened::accepted(MAKE, 0, t, kind),
            Event::Out(t, w) => Happened::new(OUT, w.0, t, 0),
            Event::Skip(t, w) => Happened::new(SKIPPED, w.0, t, 0),
            Event::End(t, w) => Happened::new(END, w.0, t, 0),
            Event::Add(c, n) => Happened::new(ADD, 0, c, u64::from(n)),
            Event::Dec(c) => Happened::new(DEC, 0, c, 0),
            Event::Fire(c, how) => Happened::new(how_code(how), 0, c, 0),
            Event::Pass(c) => Happened::new(PASSED, 0, c, 0),
            Event::Hooked(c) => Happened::new(HOOKED, 0, c, 0),
            Event::Settle(t, status) => Happened::new(SETTLE, 0, t, status_number(status)),
            Event::Close => Happened::new(CLOSE, 0, Serial(0), 0),
            Event::Stop => Happened::new(STOPPED, 0, Serial(0), 0),
            Event::Rel(t) => Happened::new(REL, 0, t, 0),
        }
    }

    /// An event without a kind.
    fn new(what: u32, by: u32, task: Serial, value: u64) -> Happened
        ensures { result ≡ happened what by task value }
    {
        Happened {
            what,
            by,
            kind: PLAIN,
            task: task.0,
            value,
            parent: NO_TASK,
        }
    }

    /// The event of a task that comes into the pool.
    fn accepted(what: u32, by: u32, task: Serial, kind: Kind) -> Happened
        ensures { result ≡ comes what by task kind }
    {
        let (kind, value, parent) = kind_codes(kind);
        Happened {
            what,
            by,
            kind,
            task: task.0,
            value,
            parent,
        }
    }
}

/// Whose queue a task is accepted into.
fn acc_code(owner: Owner) -> (u32, u32)
    ensures { result ≡ acc_code owner }
{
    match owner {
        Owner::Sub(s) => (ACC_SUB, s.0),
        Owner::Work(w) => (ACC_WORK, w.0),
    }
}

fn how_code(how: How) -> u32
    ensures { result ≡ how_code how }
{
    match how {
        How::Zero => FIRE_ZERO,
        How::Complete => FIRE_COMPLETE,
    }
}

/// What a kind is, its pending count and its parent.
fn kind_codes(kind: Kind) -> (u32, u64, u64)
    ensures { result ≡ kind_codes kind }
{
    match kind {
        Kind::Plain => (PLAIN, 0, NO_TASK),
        Kind::Completer {
            relay,
            count,
            parent,
        } => {
            let kind = if relay { RELAYING } else { COMPLETER };
            let parent = match parent {
                Some(p) => p.0,
                None => NO_TASK,
            };
            (kind, u64::from(count), parent)
        }
    }
}
