use fj_rules::Said;

/// The reply to a line of a script.
#[derive(Clone, Copy)]
pub enum Replied {
    /// The machine's reply to a step, or the refusal of a seal.
    Said(Said),
    /// 16: the name belongs to a task.
    NameTaken,
    /// The number of the epoch that was sealed, and of its events.
    Sealed(u64, u64),
    /// The number of the present epoch, and of its events so far.
    Epoch(u64, u64),
}
