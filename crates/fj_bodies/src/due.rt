ghost use Rattle.std.specs.Prelude.{◌≡◌};
ghost use Rattle.fj_bodies.specs.DueTasks.{due_after as due_after_in};

use fj_rules::{Serial, Step};

/// Which of the taken tasks, those whose outcome or result was taken, may be releasable after a step: before it none was.
#[derive(Clone, Copy)]
pub enum Due {
    /// None.
    Nothing,
    /// At most this.
    One(Serial),
    /// Any.
    All,
}

/// What is due after a step that hands no task out and ends no body.
pub fn due_after(asked: &Step) -> Due
    ensures { result ≡ due_after_in asked.now }
{
    match *asked {
        Step::QuietRoot { t, .. } | Step::Fault { t, .. } | Step::Cancel { t } => Due::One(t),
        Step::Stop => Due::All,
        _ => Due::Nothing,
    }
}
