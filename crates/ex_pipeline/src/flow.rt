ghost use Rattle.std.specs.Prelude.{◌≡◌, ℕ, Option, None, Some, IfSome};
ghost use Rattle.fj_body.specs.Turns.{AskRight, HeardRight, Nearer};
ghost use Rattle.ex_pipeline.specs.Courses.{turns_left};
ghost use Rattle.ex_pipeline.specs.Asks.{ForksNext};
ghost use Rattle.ex_pipeline.specs.Stages.{IsRight, after, item_of, number_of, run};

use crate::item::Item;
use fj_run::{Ask, Body, Heard, Kind, Serial};

/// The code of an event without room for its next stage: the number of `OutOfMemory`.
const NO_ROOM: u32 = 12;

/// How far a stage has come.
#[derive(Clone, Copy)]
pub enum Course {
    /// Nothing was done.
    New,
    /// The next stage is forked.
    Forking,
    /// Its body has ended; the next stage is this task.
    Ended(Option<Serial>),
    /// Its completion action takes the result of the next stage.
    Taking,
}

/// The body of a stage. It does its part, and forks the next stage; its completion action returns the result of that one.
#[derive(Drop)]
pub struct Flow {
    item: Item,
    course: Course,
}

impl Flow {
    /// The body of a stage for this item.
    pub fn new(item: Item) -> Flow
        ensures { result.item ≡ item }
    {
        Flow {
            item,
            course: Course::New,
        }
    }

    /// The first turn, as this task: does its part, and forks the next stage, unless it is the last.
    fn begin(&mut self, me: Serial) -> Ask<Flow>
        ensures item { self.new.item ≡ self.old.item }
        ensures rejected { run self.old.item.stage self.old.item.value ≡ None → result ≡ Ask.Fail (number_of self.old.item.stage) }
        ensures right { AskRight IsRight self.old.item result }
        ensures nearer { Nearer (turns_left self.new.course) 3 result }
        ensures next { ForksNext (λ b. b.item) (item_of (after self.old.item.stage) (run self.old.item.stage self.old.item.value)) me result }
    {
        if self.item.stage.run(self.item.value).is_none() {
            return Ask::Fail(self.item.stage.code());
        }
        let Some(next) = self.item.passed_on() else {
            self.course = Course::Ended(None);
            return Ask::Try;
        };
        self.course = Course::Forking;
        // It waits for one arrival, unless it is the last stage.
        let kind = Kind::Completer {
            relay: true,
            count: u32::from(next.stage.next().is_some()),
            parent: Some(me),
        };
        Ask::Fork(Flow::new(next), kind)
    }

    /// The completion action. The result of the last stage is its own, that of any other stage the next one's.
    fn complete(&mut self, next: Option<Serial>) -> Ask<Flow>
        ensures item { self.new.item ≡ self.old.item }
        ensures right { AskRight IsRight self.old.item result }
        ensures nearer { Nearer (turns_left self.new.course) 1 result }
        ensures taken { IfSome next (λ task. result ≡ Ask.Take task) }
        ensures last { next ≡ None → after self.old.item.stage ≡ None → result ≡ Ask.HookDone (run self.old.item.stage self.old.item.value) }
    {
        self.course = Course::Taking;
        match next {
            Some(task) => Ask::Take(task),
            None if self.item.stage.next().is_none() => {
                Ask::HookDone(self.item.stage.run(self.item.value))
            }
            None => Ask::HookDone(None),
        }
    }

    /// A turn after the result of a stage. It is that of this one, if it is the next stage's. Precondition: it is right for its key.
    fn got(&self, item: Item, level: Option<u32>) -> Ask<Flow>
        requires { ∥ IsRight item level ∥₁ }
        ensures right { AskRight IsRight self.now.item result }
        ensures nearer { Nearer 0 0 result }
        ensures level { item_of (after self.now.item.stage) (run self.now.item.stage self.now.item.value) ≡ Some item → result ≡ Ask.HookDone level }
    {
        match self.item.passed_on() {
            Some(next) if next == item => Ask::HookDone(level),
            _ => Ask::HookDone(None),
        }
    }
}

impl Body for Flow {
    type Key = Item;

    type Out = Option<u32>;

    ghost key_of = { λ b. b.item };

    // The first stage is submitted, and waits for the second.
    ghost rooted_as = { λ b. Some 1 };

    ghost right = { IsRight };

    ghost turns = { λ b. turns_left b.course };

    fn key(&self) -> &Item {
        &self.item
    }

    fn into_key(self) -> Item {
        self.item
    }

    fn rooted(&self) -> Option<u16> {
        Some(1)
    }

    fn turn(&mut self, heard: Heard<Flow>) -> Ask<Flow>
        requires { HeardRight IsRight heard }
        ensures key { self.new.item ≡ self.old.item }
        ensures rooted { ◌≡◌ {A = Option ℕ} (Some 1) (Some 1) }
        ensures right { AskRight IsRight self.old.item result }
        ensures nearer { Nearer (turns_left self.new.course) (turns_left self.old.course) result }
    {
        match (self.course, heard) {
            (Course::New, Heard::Start(me)) => self.begin(me),
            (Course::Forking, Heard::Task(next)) => {
                self.course = Course::Ended(Some(next));
                Ask::Try
            }
            (Course::Ended(next), Heard::Hook(_)) => self.complete(next),
            (Course::Taking, Heard::Got(item, level)) => self.got(item, level),
            // A pool only answers so where there is no room for the next stage.
            (Course::Taking, _) => Ask::HookDone(None),
            _ => Ask::Fail(NO_ROOM),
        }
    }
}
