ghost use Rattle.std.specs.Prelude.{◌≡◌, ℕ, Option};

use fj_rules::{Kind, Place, Refusal, Serial, Status};

/// What a body hears in its next turn.
#[derive(Drop)]
pub enum Heard<B: Body> {
    /// Its first turn, as this task: `RecursiveTask.compute` begins.
    Start(Serial),
    /// Its completion action begins, caused by this task: `CountedCompleter.onCompletion(caller)`.
    Hook(Serial),
    /// The forked body, or the trigger, is this task.
    Task(Serial),
    /// The fork or trigger was refused: its body comes back.
    Handed(B, Refusal),
    /// The key of the joined or taken task, and its result, which is right for that key.
    Got(B::Key, B::Out),
    /// The joined task ended normally and has no result, or none any more: a join, a take or a caller of its outcome got it, or a release
    /// dropped it.
    Bare,
    /// The joined task ended exceptionally, with this code.
    Failed(u32),
    /// The joined task was cancelled, or stopped.
    Cancelled,
    /// The request was refused, and changed nothing. A result that came with it is dropped.
    Refused(Refusal),
    /// Whether the worker ran another task meanwhile, or skipped one.
    Helped(bool),
    /// The pending count after an addition.
    Count(u32),
    /// The request was carried out.
    Went,
    /// The task was ended by this request, or a cancel found it cancelled.
    Yes,
    /// The task was done already; for a cancel: and not cancelled.
    No,
    /// Where the task is, and how it ended.
    Is(Place, Status),
}

/// What a body asks.
#[derive(Drop)]
pub enum Ask<B: Body> {
    /// Pushes a new task onto the worker's queue: `ForkJoinTask.fork`. It hears `Task` or `Handed`.
    Fork(B, Kind),
    /// A new completer with this pending count, which only arrivals fire: it is never queued. It hears `Task` or `Handed`.
    Trigger(B, u32),
    /// The result of a task, once it is done; other tasks are run meanwhile: `ForkJoinTask.join`. It hears `Got`, `Bare`, `Failed`, `Cancelled`
    /// or `Refused`.
    Join(Serial),
    /// Runs one other task, if there is one: `ForkJoinTask.helpQuiesce` for one task. It hears `Helped` or `Refused`.
    Help,
    /// The result of a gone task that has one. It hears `Got` or `Refused`.
    Take(Serial),
    /// Gives up the result and the outcome of a task: it is released as soon as it can be, and its result is dropped. In Java a task without
    /// references is garbage. It hears `Went` or `Refused`.
    Release(Serial),
    /// Raises a pending count: `CountedCompleter.addToPendingCount`. It hears `Count` or `Refused`.
    Add(Serial, u32),
    /// Ends the root above a task, without arrivals: `CountedCompleter.quietlyCompleteRoot`. It hears `Went` or `Refused`.
    QuietRoot(Serial),
    /// Cancels a task: `ForkJoinTask.cancel`. It hears `Yes`, `No` or `Refused`.
    Cancel(Serial),
    /// Ends a task exceptionally, with a code: `ForkJoinTask.completeExceptionally`. It hears `Yes`, `No` or `Refused`.
    Fault(Serial, u32),
    /// Where a task is, and how it ended. It hears `Is` or `Refused`.
    State(Serial),
    /// Ends the body of a plain task with a result, which is right for its key: `RecursiveTask.compute` returns. If the task is a completer,
    /// the body hears `Refused`, and the result is dropped.
    Ok(B::Out),
    /// Ends the body of a completer without a result, and without an arrival: `CountedCompleter.compute` returns. Here and in the next three
    /// the body of a plain task hears `Refused`.
    Quiet,
    /// Ends the body and arrives: `CountedCompleter.tryComplete`.
    Try,
    /// Ends the body and arrives without a completion action: `CountedCompleter.propagateCompletion`.
    Pass,
    /// Ends the body and runs its completion action, whatever is pending: `CountedCompleter.complete`.
    Complete,
    /// Ends any body exceptionally, with this code: `compute` throws.
    Fail(u32),
    /// Ends the completion action with a result, which is right for its key: `CountedCompleter.onCompletion` returns. A body that runs no
    /// completion action hears `Refused`.
    HookDone(B::Out),
}

/// The answer to an action of a worker.
#[derive(Drop)]
pub enum Told<B: Body> {
    /// The running body, or the hook, hears this in its next turn.
    Hear(Heard<B>),
    /// The body of this task is on top of the hand, for its first turn.
    Run(Serial),
    /// This task was done before it began; here is its body.
    Skip(Serial, B),
    /// No task is queued.
    None,
    /// A completion action is in the hand: that of the first task, caused by the second.
    Hook(Serial, Serial),
    /// The body, or the completion action, has ended. The body is returned if it gave no result and its task is gone.
    Over(Option<B>),
    /// The history had no room, now or before, and nothing was done. A body that came with the request is returned.
    Stuck(Option<B>),
}

/// The work of a task, in turns.
pub trait Body: Drop {
    ghost use Rattle.fj_body.specs.declared.body.Heard.{Heard};
    ghost use Rattle.fj_body.specs.declared.body.Ask.{Ask};
    ghost use Rattle.fj_body.specs.Turns.{HeardRight, AskRight, Nearer};

    /// What a body is for. It is kept beside the result.
    type Key: Eq + Drop;

    /// A result: `ForkJoinTask.getRawResult`.
    type Out: Drop;

    /// What it is for.
    ghost key_of: { Self → Self.Key };

    /// How it is submitted: as a plain task, or as a completer with this pending count.
    ghost rooted_as: { Self → Option ℕ };

    /// This result is right for this key.
    ghost right: { Self.Key → Self.Out → Type 0 };

    /// At most so many turns come before it asks for its next ending. Once it asks, whether refused or not, the bound may be any.
    ghost turns: { Self → ℕ };

    /// How a turn moves it: the body before, what it hears, what it asks, the body after. By default in any way.
    ghost moves: { Self → Heard Self Self.Key Self.Out → Ask Self Self.Key Self.Out → Self → Type 0 } = { λ _ _ _ _. Unit {0} };

    /// What it is for.
    fn key(&self) -> &Self::Key
        ensures { result.now ≡ key_of self.now };

    /// The same, from a body that has ended.
    fn into_key(self) -> Self::Key
        ensures { result ≡ key_of self };

    /// How it is submitted: as a plain task, or as a completer with this pending count.
    fn rooted(&self) -> Option<u16>
        ensures { result ≡ rooted_as self.now };

    /// One turn: hears this, and asks. Precondition: a result that is heard is right for its key. A turn keeps the key and how the body is
    /// submitted, moves it as stated, a result that it gives is right for the key, and it asks for an ending or brings the body nearer to one.
    fn turn(&mut self, heard: Heard<Self>) -> Ask<Self>
        requires { HeardRight right heard }
        ensures key { key_of self.new ≡ key_of self.old }
        ensures rooted { rooted_as self.new ≡ rooted_as self.old }
        ensures right { AskRight right (key_of self.old) result }
        ensures nearer { Nearer (turns self.new) (turns self.old) result }
        ensures moves { moves self.old heard result self.new };
}
