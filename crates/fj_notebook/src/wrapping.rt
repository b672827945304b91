//! What a body inside hears, and what is asked around it.
ghost use Rattle.std.specs.Prelude.{◌≡◌, ℕ};
ghost use Rattle.fj_body.specs.Turns.{HeardRight, AskRight, Nearer};
ghost use Rattle.fj_notebook.specs.Wraps.{ask_by, heard_by, milestone_of};

use crate::labelled::Labelled;
use crate::notebook::Notebook;
use crate::noted::Noted;
use fj_body::{Ask, Body, Heard};
use fj_notes::Milestone;
use std::rt::Clock;

/// What the body inside hears: the same, and a body that was handed back without what is around it.
pub fn heard_inside<'n, B: Body + Labelled, C: Clock + Drop>(
    heard: Heard<Noted<'n, B, C>>,
) -> Heard<B>
    ensures same { result ≡ heard_by heard.entry (λ n. n.body) }
    ensures right { HeardRight B.right heard.entry → HeardRight B.right result }
{
    match heard {
        Heard::Start(t) => Heard::Start(t),
        Heard::Hook(cause) => Heard::Hook(cause),
        Heard::Task(t) => Heard::Task(t),
        Heard::Handed(noted, refusal) => Heard::Handed(noted.into_body(), refusal),
        Heard::Got(key, out) => Heard::Got(key, out),
        Heard::Bare => Heard::Bare,
        Heard::Failed(code) => Heard::Failed(code),
        Heard::Cancelled => Heard::Cancelled,
        Heard::Refused(refusal) => Heard::Refused(refusal),
        Heard::Helped(whether) => Heard::Helped(whether),
        Heard::Count(count) => Heard::Count(count),
        Heard::Went => Heard::Went,
        Heard::Yes => Heard::Yes,
        Heard::No => Heard::No,
        Heard::Is(place, status) => Heard::Is(place, status),
    }
}

/// What is asked around the body inside: the same, and notes are taken of a body that it forks too.
pub fn ask_of<'n, B: Body + Labelled, C: Clock + Drop>(
    ask: Ask<B>,
    notebook: &'n Notebook<C>,
) -> Ask<Noted<'n, B, C>>
    ensures same { ask_by result (λ n. n.body) ≡ ask }
    ensures right { (k : B.Key) → AskRight B.right k ask → AskRight B.right k result }
    ensures nearer { (new old : ℕ) → Nearer new old ask → Nearer new old result }
{
    match ask {
        Ask::Fork(body, kind) => Ask::Fork(Noted::new(body, notebook), kind),
        Ask::Trigger(body, count) => Ask::Trigger(Noted::new(body, notebook), count),
        Ask::Join(t) => Ask::Join(t),
        Ask::Help => Ask::Help,
        Ask::Take(t) => Ask::Take(t),
        Ask::Release(t) => Ask::Release(t),
        Ask::Add(c, n) => Ask::Add(c, n),
        Ask::QuietRoot(t) => Ask::QuietRoot(t),
        Ask::Cancel(t) => Ask::Cancel(t),
        Ask::Fault(t, code) => Ask::Fault(t, code),
        Ask::State(t) => Ask::State(t),
        Ask::Ok(out) => Ask::Ok(out),
        Ask::Quiet => Ask::Quiet,
        Ask::Try => Ask::Try,
        Ask::Pass => Ask::Pass,
        Ask::Complete => Ask::Complete,
        Ask::Fail(code) => Ask::Fail(code),
        Ask::HookDone(out) => Ask::HookDone(out),
    }
}

/// To which milestone a task has come whose body asks this.
pub fn milestone_of<B: Body>(ask: &Ask<B>) -> Option<Milestone>
    ensures { result ≡ milestone_of ask.now }
{
    match ask {
        Ask::Ok(_) | Ask::Quiet | Ask::Try | Ask::Pass | Ask::Complete | Ask::Fail(_) => {
            Some(Milestone::End)
        }
        Ask::HookDone(_) => Some(Milestone::Hooked),
        _ => None,
    }
}
