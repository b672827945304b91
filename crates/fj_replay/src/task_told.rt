ghost use Rattle.std.specs.Prelude.{◌≡◌, ◌≤◌, length, Some, None, IfSome, MatchOption};
ghost use Rattle.fj_replay.specs.Namings.{task_told};
ghost use Rattle.fj_replay.specs.Plays.{is_task};

use fj_rules::{Said, Serial};

/// The first word of a reply that names a task, and the task.
pub fn task_told(said: &Said) -> Option<(&'static str, Serial)>
    ensures told { MatchOption result (task_told said.now ≡ None) (λ told. task_told said.now ≡ Some (told.0.now, told.1)) }
    ensures short { IfSome result (λ told. length told.0.now ≤ 7) }
{
    match *said {
        Said::Task(t) => Some(("task", t)),
        Said::Run(t) => Some(("run", t)),
        Said::Skip(t) => Some(("skip", t)),
        Said::Counted(t) => Some(("counted", t)),
        Said::Hook(t) => Some(("hook", t)),
        Said::Spent(t) => Some(("spent", t)),
        Said::Early(t) => Some(("early", t)),
        Said::Root(t) => Some(("root", t)),
        _ => None,
    }
}

/// Whether the reply accepts a task.
pub fn is_task(said: &Said) -> bool
    ensures { result ≡ is_task said.now }
{
    matches!(*said, Said::Task(_))
}
