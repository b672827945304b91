use fj_rules::{Refusal, Serial};

/// What an intake did. Java has no counterpart: its submitters take the lock themselves.
#[derive(Clone, Copy, Debug, PartialEq)]
pub enum Intake {
    /// A parcel was taken in, as this task.
    Took(Serial),
    /// Nothing was taken in: the drain gave nothing, or the machine is shut.
    Empty,
    /// Nothing was taken in, since the machine has no room for a task or for an event, or since the core is stuck.
    Full(Refusal),
}
