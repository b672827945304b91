ghost use Rattle.std.specs.Prelude.{◌≡◌, None};

use crate::labelled::Labelled;
use crate::notebook::Notebook;
use crate::wrapping::{ask_of, heard_inside, milestone_of};
use fj_body::{Ask, Body, Heard};
use fj_notes::Milestone;
use fj_rules::Serial;
use std::rt::Clock;

/// A body of which notes are taken, and of each body that it forks. It hears and asks what the body inside hears and asks, is kept under the
/// same key and submitted alike.
///
/// Noted are its label, when its first turn began and when a turn in which it asked for its ending ended, and the same of its completion action. If
/// an ending is refused the later one counts. The completion action of a trigger is not noted, since a trigger does not hear its number.
#[derive(Drop)]
pub struct Noted<'n, B, C> {
    body: B,
    /// Its number, once it has begun.
    task: Option<Serial>,
    notebook: &'n Notebook<C>,
}

// Without a bound, as the bodies that it holds may have any.
impl<'n, B, C> Noted<'n, B, C> {
    /// A body before its first turn.
    pub fn new(body: B, notebook: &'n Notebook<C>) -> Noted<'n, B, C>
        ensures body { result.body ≡ body }
        ensures task { result.task ≡ None }
    {
        Noted {
            body,
            task: None,
            notebook,
        }
    }

    /// The body inside.
    pub fn into_body(self) -> B
        ensures { result ≡ self.entry.body }
    {
        let Noted {
            body,
            task: _,
            notebook: _,
        } = self;
        body
    }
}

impl<'n, B: Body + Labelled, C: Clock + Drop> Noted<'n, B, C> {
    /// Notes what it hears before a turn.
    fn note_heard(&mut self, heard: &Heard<Noted<'n, B, C>>)
        ensures { self.new.body ≡ self.old.body }
    {
        match heard {
            Heard::Start(t) => {
                self.task = Some(*t);
                self.notebook.note_label(*t, &self.body);
                self.notebook.note(*t, Milestone::Begin);
            }
            Heard::Hook(_) => self.note(Milestone::Fire),
            _ => {}
        }
    }

    /// Notes that its task has come to a milestone.
    fn note(&self, milestone: Milestone) {
        if let Some(t) = self.task {
            self.notebook.note(t, milestone);
        }
    }
}

impl<'n, B: Body + Labelled, C: Clock + Drop> Body for Noted<'n, B, C> {
    ghost use Rattle.fj_body.specs.Turns.{HeardRight, AskRight, Nearer};

    type Key = B::Key;

    type Out = B::Out;

    ghost key_of = { λ n. B.key_of n.body };

    ghost rooted_as = { λ n. B.rooted_as n.body };

    ghost right = { B.right };

    ghost turns = { λ n. B.turns n.body };

    fn key(&self) -> &B::Key {
        self.body.key()
    }

    fn into_key(self) -> B::Key {
        self.into_body().into_key()
    }

    fn rooted(&self) -> Option<u16> {
        self.body.rooted()
    }

    fn turn(&mut self, heard: Heard<Noted<'n, B, C>>) -> Ask<Noted<'n, B, C>>
        requires { HeardRight B.right heard }
        ensures key { B.key_of self.new.body ≡ B.key_of self.old.body }
        ensures rooted { B.rooted_as self.new.body ≡ B.rooted_as self.old.body }
        ensures right { AskRight B.right (B.key_of self.old.body) result }
        ensures nearer { Nearer (B.turns self.new.body) (B.turns self.old.body) result }
    {
        self.note_heard(&heard);
        let ask = self.body.turn(heard_inside(heard));
        if let Some(milestone) = milestone_of(&ask) {
            self.note(milestone);
        }
        ask_of(ask, self.notebook)
    }
}
