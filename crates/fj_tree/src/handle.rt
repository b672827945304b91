use fj_rules::Serial;
use std::marker::Model;

/// A generational index of a record: its key, and the number of its task.
///
/// A handle is good while the record at its key has its number. A number is never reused, so a handle that is no longer good is never
/// good again.
#[derive(Clone, Copy, PartialEq)]
pub struct Handle {
    /// The key of the record.
    pub key: usize,
    /// The number of the task.
    pub serial: Serial,
}

// For the proof: without a model, a `Copy` struct with a field that has one can be passed on only once.
impl Model for Handle {
    ghost use Rattle.fj_tree.specs.Handles.{Handle as Named};

    ghost Value = { Named };

    ghost view = { λ h. record { key = h.key; serial = h.serial } };

    ghost inverse = { λ h. record { key = h.key; serial = h.serial } };
}
