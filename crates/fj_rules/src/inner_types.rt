use crate::event::How;
use crate::ids::{Serial, SubId, WorkerId};
use crate::kind::{Kind, SubmittedKind};
use crate::owner::Owner;
use crate::place::Place;
use crate::refusal::Refusal;
use crate::said::Said;
use crate::status::Status;
use crate::step::{Ending, Step};

/// The types inside an event, a step, a reply, a move or an answer. A check wants all of them named in a function that moves one of these
/// values: `let _inside: Option<InnerTypes> = None;` does so, and nothing else.
pub type InnerTypes = (
    Step,
    Ending,
    Said,
    Refusal,
    Owner,
    Kind,
    SubmittedKind,
    Place,
    Status,
    How,
    Serial,
    SubId,
    WorkerId,
);
