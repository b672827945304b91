ghost use Rattle.std.specs.Prelude.{◌≡◌, ◌<◌, ◌+◌, ◌-◌, ◌^◌, Option, ℕ, Some, length, slice_get, vec_len};
ghost use Rattle.fj_body.specs.Turns.{AskRight, HeardRight, Nearer};
ghost use Rattle.ex_build.specs.Artifacts.{IsRight};
ghost use Rattle.fj_run.specs.Asks.{AsksUnder};
ghost use Rattle.ex_build.specs.Asks.{ForksInput, HasTask, end_of, own_task};
ghost use Rattle.ex_build.specs.Courses.{turns_left};

use crate::artifact::{Artifact, link};
use crate::target::{Source, Target};
use fj_run::{Ask, Body, Heard, Kind, Serial};
use std::alloc::Global;
use std::mem;

/// The code of a target for which there is no room: the number of `OutOfMemory`.
const NO_ROOM: u32 = 12;

/// The code of a target that needs one not in the plan.
const NO_TARGET: u32 = 404;

/// How far a target has come.
#[derive(Clone, Copy)]
pub enum Course {
    /// Nothing was done.
    New,
    /// As this task, it raises its pending count by the number of its inputs.
    Adding(u64),
    /// As this task, it forks its inputs; or its body has ended.
    Forking(u64),
    /// Its completion action takes the artifacts of its inputs.
    Taking,
}

/// The body of a target: it forks a body for each input, compiles its own sources meanwhile, and links in its completion action.
#[derive(Drop)]
pub struct Make<'p> {
    plan: &'p [Target<'p>],
    target: Target<'p>,
    course: Course,
    /// The tasks of the inputs that were forked.
    forked: Vec<u64>,
    /// The sizes of the inputs whose artifacts were taken.
    parts: Vec<u64>,
}

impl<'p> Make<'p> {
    /// The body of a target of a plan. It allocates nothing.
    pub fn new(alloc: Global, plan: &'p [Target<'p>], target: Target<'p>) -> Make<'p>
        ensures target { result.target ≡ target.entry }
        ensures plan { result.plan.now ≡ plan.now }
    {
        Make {
            plan,
            target,
            course: Course::New,
            forked: Vec::new(alloc),
            parts: Vec::new(alloc),
        }
    }

    /// Raises the pending count of its own task by the number of its inputs.
    fn wait(&self, me: u64) -> Ask<Make<'p>>
        ensures right { AskRight IsRight self.now.target result }
        ensures own { AsksUnder (Some me) result }
        ensures inputs { length self.now.target.inputs.now < 2 ^ 32 → result ≡ Ask.Add me (length self.now.target.inputs.now) }
    {
        match u32::try_from(self.target.inputs.len()) {
            Ok(inputs) => Ask::Add(Serial(me), inputs),
            Err(_) => Ask::Fail(NO_ROOM),
        }
    }

    /// Forks the next input under its own task; compiles where none is left.
    fn fork(&self, me: u64) -> Ask<Make<'p>>
        ensures right { AskRight IsRight self.now.target result }
        ensures nearer { Nearer (vec_len self.now.forked) (length self.now.target.inputs.now) result }
        ensures own { AsksUnder (Some me) result }
        ensures input { ForksInput (λ b. b.target) self.now.plan.now self.now.target.source (slice_get self.now.target.inputs.now (vec_len self.now.forked)) me result }
    {
        let Some(input) = self.target.inputs.get(self.forked.len()) else {
            return self.compile();
        };
        let Some(target) = self.plan.get(*input) else {
            return Ask::Fail(NO_TARGET);
        };
        let kind = Kind::Completer {
            relay: true,
            count: 0,
            parent: Some(Serial(me)),
        };
        Ask::Fork(
            Make::new(*self.forked.allocator(), self.plan, *target),
            kind,
        )
    }

    /// Compiles its own sources, and ends.
    fn compile(&self) -> Ask<Make<'p>>
        ensures right { AskRight IsRight self.now.target result }
        ensures nearer { Nearer 0 0 result }
        ensures source { result ≡ end_of self.now.target.source }
    {
        match self.target.source {
            Source::Compiles(_) => Ask::Try,
            Source::Fails(code) => Ask::Fail(code),
        }
    }

    /// Takes the artifact of the next input; links where none is left.
    fn take(&mut self) -> Ask<Make<'p>>
        ensures target { self.new.target ≡ self.old.target }
        ensures right { AskRight IsRight self.old.target result }
        ensures course { self.new.course ≡ self.old.course }
        ensures nearer { Nearer (length self.old.target.inputs.now - vec_len self.new.parts) (length self.old.target.inputs.now + 1 - vec_len self.old.parts) result }
        ensures own { (me : Option ℕ) → AsksUnder me result }
    {
        let inputs = self.target.inputs.len();
        let taken = self.parts.len();
        match self.forked.get(taken) {
            Some(task) if taken < inputs => Ask::Take(Serial(*task)),
            _ => Ask::HookDone(self.linked()),
        }
    }

    /// Links its own objects and the parts that were taken. None if parts are missing, or the artifact is too large.
    fn linked(&mut self) -> Option<Artifact>
        ensures target { self.new.target ≡ self.old.target }
        ensures course { self.new.course ≡ self.old.course }
        ensures made { IsRight self.old.target result }
    {
        let none = Vec::new(*self.parts.allocator());
        let parts = mem::replace(&mut self.parts, none);
        match self.target.source {
            Source::Compiles(own) if parts.len() == self.target.inputs.len() => link(own, parts),
            _ => None,
        }
    }
}

impl<'p> Body for Make<'p> {
    type Key = Target<'p>;

    type Out = Option<Artifact>;

    ghost key_of = { λ b. b.target };

    ghost rooted_as = { λ b. Some 0 };

    ghost right = { IsRight };

    ghost turns = { λ b. turns_left (length b.target.inputs.now) b.course (vec_len b.forked) (vec_len b.parts) };

    fn key(&self) -> &Target<'p> {
        &self.target
    }

    fn into_key(self) -> Target<'p> {
        self.target
    }

    fn rooted(&self) -> Option<u16> {
        Some(0)
    }

    fn turn(&mut self, heard: Heard<Make<'p>>) -> Ask<Make<'p>>
        requires { HeardRight IsRight heard }
        ensures key { self.new.target ≡ self.old.target }
        ensures rooted { ◌≡◌ {A = Option ℕ} (Some 0) (Some 0) }
        ensures right { AskRight IsRight self.old.target result }
        ensures nearer { Nearer (turns_left (length self.new.target.inputs.now) self.new.course (vec_len self.new.forked) (vec_len self.new.parts)) (turns_left (length self.old.target.inputs.now) self.old.course (vec_len self.old.forked) (vec_len self.old.parts)) result }
        ensures own { AsksUnder (own_task self.old.course heard.entry) result }
        ensures stays { HasTask (own_task self.old.course heard.entry) self.new.course }
    {
        match (self.course, &heard) {
            (Course::New, Heard::Start(me)) => {
                self.course = Course::Adding(me.0);
                self.wait(me.0)
            }
            (Course::Adding(me), Heard::Count(_)) => {
                self.course = Course::Forking(me);
                self.fork(me)
            }
            (Course::Forking(me), Heard::Task(input)) => match self.forked.push(input.0) {
                Ok(()) => self.fork(me),
                Err(_) => Ask::Fail(NO_ROOM),
            },
            (Course::Forking(_), Heard::Hook(_)) => {
                self.course = Course::Taking;
                self.take()
            }
            (Course::Taking, Heard::Got(_, Some(artifact))) => {
                match self.parts.push(artifact.size) {
                    Ok(()) => self.take(),
                    Err(_) => Ask::HookDone(None),
                }
            }
            (Course::Taking, _) => Ask::HookDone(None),
            _ => Ask::Fail(NO_ROOM),
        }
    }
}
