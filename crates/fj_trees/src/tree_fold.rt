ghost use Rattle.std.specs.Prelude.{◌≡◌, ◌==◌, ◌+◌, ◌<◌, ℕ, Option, Some, None, IfErr, IfOk, length, vec_len, vec_capacity};
ghost use Rattle.fj_trees.specs.TreeValues.{node_value};
ghost use Rattle.fj_body.specs.Turns.{AskRight, HeardRight, Nearer};
ghost use Rattle.fj_results.specs.Results.{RefusesAnswer, RefusesRun};
ghost use Rattle.fj_trees.specs.Courses.{HasRoom, IsCourse, IsNew, turns_left};
ghost use Rattle.fj_trees.specs.Stages.{Adds, AsksNext, Fails, ForksNext, GoesOnWithout, TakesNext, tasks_by, with_task};
ghost use Rattle.fj_trees.specs.Tallies.{numbers_from};
ghost use Rattle.std.proofs.Props.{props};

use crate::child_sum::ChildSum;
use crate::family::Family;
use crate::fold_progress::{FoldProgress, FoldStage};
use crate::in_place::value_in_place;
use crate::named_tree::NamedTree;
use fj_body::{Ask, Body, Heard, Outcome};
use fj_results::result_under;
use fj_rules::{Kind, Refusal, Serial};
use std::alloc::{AllocError, Global};
use std::marker::PhantomData;

/// The body of a node: it forks a body for each child and sums their values in its completion action, as a `CountedCompleter` that sums a
/// tree. It borrows the family: until it forks them, it is as small for a node with 4,000 children as for a leaf. It is boxed, since a pool
/// moves a body several times.
#[derive(Drop)]
pub struct TreeFold<'a, F: NamedTree> {
    inside: Box<FoldState<'a, F>>,
}

/// The state of the body of a node.
#[derive(Drop)]
pub struct FoldState<'a, F: NamedTree> {
    family: &'a Family,
    course: FoldProgress,
    /// The numbers of the tasks of its children, the first child's first.
    forked: Vec<u64>,
    of: PhantomData<F>,
    ghost same: { family.now ≡ F.nodes },
    ghost right: { IsCourse F.nodes course } by { Prim.hlevel props },
    ghost room: { ∥ HasRoom course.stage (vec_len forked < vec_capacity forked) ∥₁ },
}

impl<'a, F: NamedTree> TreeFold<'a, F> {
    /// The body of a node. `AllocError` where out of memory. Preconditions: the family is that of the tree that the type names, and has
    /// such a node.
    pub fn new(
        alloc: Global,
        family: &'a Family,
        number: u32,
    ) -> Result<TreeFold<'a, F>, AllocError>
        requires same { family.now ≡ F.nodes }
        requires there { number < length F.nodes }
        ensures { IfOk result (λ body. IsNew F.nodes number body.inside.value.course body.inside.value.forked.items) }
    {
        let course = FoldProgress {
            stage: FoldStage::New,
            next: family.first_child(number),
            tally: ChildSum::new(family, number),
        };
        let inside = FoldState {
            family,
            course,
            forked: Vec::new(alloc),
            of: PhantomData,
        };
        match Box::new(alloc, inside) {
            Ok(inside) => Ok(TreeFold { inside }),
            Err(_) => Err(AllocError),
        }
    }

    /// The value of a node, from what came of its body: the answer of `run_alone`, or of a pool to which it was submitted.
    ///
    /// `LogFull` if the answer is that refusal, or the body failed with its number. `OutOfMemory` if there is no result of this node for any
    /// other reason.
    pub fn value_in(
        answer: Result<Outcome<TreeFold<'a, F>>, Refusal>,
        number: u32,
    ) -> Result<u64, Refusal>
        ensures ok { IfOk result (λ value. value ≡ node_value F.nodes number) }
        ensures refused { IfErr result (λ refusal. RefusesAnswer ◌==◌ number answer.entry refusal) }
        ensures err { IfErr result RefusesRun }
    {
        result_under(answer, &number)
    }
}

impl<'a, F: NamedTree> FoldState<'a, F> {
    /// The first turn, as this task: raises the pending count by the number of children.
    fn begin(&mut self, me: u64) -> Ask<TreeFold<'a, F>>
        ensures key { self.new.course.tally.node ≡ self.old.course.tally.node }
        ensures right { AskRight (λ k o. o ≡ node_value F.nodes k) self.old.course.tally.node result }
        ensures nearer { Nearer (turns_left (length F.nodes) self.new.course) (turns_left (length F.nodes) self.old.course) result }
        ensures next { AsksNext F.nodes (λ b. b.inside.value.course) (λ b. b.inside.value.forked.items) self.old.course self.old.forked.items (Heard.Start me) self.new.course result }
        ensures tasks { self.new.forked.items ≡ self.old.forked.items }
    {
        let FoldStage::New = self.course.stage else {
            return self.go_on_without();
        };
        self.course.stage = FoldStage::Adding(me);
        Ask::Add(Serial(me), self.family.children(self.course.tally.node))
    }

    /// A turn after the pending count was raised.
    fn added(&mut self) -> Ask<TreeFold<'a, F>>
        ensures key { self.new.course.tally.node ≡ self.old.course.tally.node }
        ensures right { AskRight (λ k o. o ≡ node_value F.nodes k) self.old.course.tally.node result }
        ensures nearer { Nearer (turns_left (length F.nodes) self.new.course) (turns_left (length F.nodes) self.old.course) result }
        ensures next { (count : ℕ) → AsksNext F.nodes (λ b. b.inside.value.course) (λ b. b.inside.value.forked.items) self.old.course self.old.forked.items (Heard.Count count) self.new.course result }
        ensures tasks { self.new.forked.items ≡ self.old.forked.items }
    {
        let FoldStage::Adding(me) = self.course.stage else {
            return self.go_on_without();
        };
        self.fork(me)
    }

    /// A turn after a child was forked as this task.
    fn forked(&mut self, child: u64) -> Ask<TreeFold<'a, F>>
        ensures key { self.new.course.tally.node ≡ self.old.course.tally.node }
        ensures right { AskRight (λ k o. o ≡ node_value F.nodes k) self.old.course.tally.node result }
        ensures nearer { Nearer (turns_left (length F.nodes) self.new.course) (turns_left (length F.nodes) self.old.course) result }
        ensures next { AsksNext F.nodes (λ b. b.inside.value.course) (λ b. b.inside.value.forked.items) self.old.course self.old.forked.items (Heard.Task child) self.new.course result }
        ensures tasks { self.new.forked.items ≡ with_task self.old.course.stage child self.old.forked.items }
    {
        let FoldStage::Forking(me) = self.course.stage else {
            return self.go_on_without();
        };
        self.course.stage = FoldStage::Ended;
        self.forked.push_reserved(child);
        self.fork(me)
    }

    /// The completion action begins.
    fn hooked(&mut self) -> Ask<TreeFold<'a, F>>
        ensures key { self.new.course.tally.node ≡ self.old.course.tally.node }
        ensures right { AskRight (λ k o. o ≡ node_value F.nodes k) self.old.course.tally.node result }
        ensures nearer { Nearer (turns_left (length F.nodes) self.new.course) (turns_left (length F.nodes) self.old.course) result }
        ensures next { (caller : ℕ) → AsksNext F.nodes (λ b. b.inside.value.course) (λ b. b.inside.value.forked.items) self.old.course self.old.forked.items (Heard.Hook caller) self.new.course result }
        ensures tasks { self.new.forked.items ≡ self.old.forked.items }
    {
        if let FoldStage::Taking = self.course.stage {
            return self.go_on_without();
        }
        self.course.stage = FoldStage::Taking;
        self.take()
    }

    /// A turn after a result, of the next child or under another key. Precondition: it is right for its key.
    fn got(&mut self, key: u32, value: u64) -> Ask<TreeFold<'a, F>>
        requires { ∥ value ≡ node_value F.nodes key ∥₁ }
        ensures key { self.new.course.tally.node ≡ self.old.course.tally.node }
        ensures right { AskRight (λ k o. o ≡ node_value F.nodes k) self.old.course.tally.node result }
        ensures nearer { Nearer (turns_left (length F.nodes) self.new.course) (turns_left (length F.nodes) self.old.course) result }
        ensures next { AsksNext F.nodes (λ b. b.inside.value.course) (λ b. b.inside.value.forked.items) self.old.course self.old.forked.items (Heard.Got key value) self.new.course result }
        ensures tasks { self.new.forked.items ≡ self.old.forked.items }
    {
        if let FoldStage::Taking = self.course.stage
            && self.course.tally.child == Some(key)
        {
            self.add(key, value)
        } else {
            self.go_on_without()
        }
    }

    /// A turn after a refusal, or anything unexpected. In its completion action the body computes the value of the child in place; before
    /// that it fails.
    fn go_on_without(&mut self) -> Ask<TreeFold<'a, F>>
        ensures key { self.new.course.tally.node ≡ self.old.course.tally.node }
        ensures right { AskRight (λ k o. o ≡ node_value F.nodes k) self.old.course.tally.node result }
        ensures nearer { Nearer (turns_left (length F.nodes) self.new.course) (turns_left (length F.nodes) self.old.course) result }
        ensures without { GoesOnWithout F.nodes self.old.course.stage self.old.course self.old.forked.items self.new.course result }
        ensures tasks { self.new.forked.items ≡ self.old.forked.items }
    {
        let FoldStage::Taking = self.course.stage else {
            return self.fail();
        };
        let Some(child) = self.course.tally.child else {
            return Ask::HookDone(self.course.tally.sum);
        };
        let value = value_in_place(self.family, child);
        self.add(child, value)
    }

    /// Forks the next child, or ends where none is left. Fails where out of memory for the child's body.
    fn fork(&mut self, me: u64) -> Ask<TreeFold<'a, F>>
        ensures key { self.new.course.tally.node ≡ self.old.course.tally.node }
        ensures right { AskRight (λ k o. o ≡ node_value F.nodes k) self.old.course.tally.node result }
        ensures nearer { Nearer (turns_left (length F.nodes) self.new.course) (length F.nodes + 1 + numbers_from (length F.nodes) self.old.course.next) result }
        ensures forks { ForksNext F.nodes (λ b. b.inside.value.course) (λ b. b.inside.value.forked.items) me self.old.course.next self.old.course self.new.course result }
        ensures tasks { self.new.forked.items ≡ self.old.forked.items }
    {
        self.course.stage = FoldStage::Ended;
        let Some(child) = self.course.next else {
            return Ask::Try;
        };
        if self.forked.reserve(1).is_err() {
            return self.fail();
        }
        match TreeFold::new(*self.forked.allocator(), self.family, child) {
            Ok(body) => self.fork_child(me, child, body),
            Err(_) => self.fail(),
        }
    }

    /// Forks the next child. Preconditions: `child` is the next one, `body` is its body, and there is room for its task.
    fn fork_child(&mut self, me: u64, child: u32, body: TreeFold<'a, F>) -> Ask<TreeFold<'a, F>>
        requires next { self.old.course.next ≡ Some child }
        requires body { IsNew F.nodes child body.inside.value.course body.inside.value.forked.items }
        requires room { vec_len self.old.forked < vec_capacity self.old.forked }
        ensures key { self.new.course.tally.node ≡ self.old.course.tally.node }
        ensures right { AskRight (λ k o. o ≡ node_value F.nodes k) self.old.course.tally.node result }
        ensures nearer { Nearer (turns_left (length F.nodes) self.new.course) (length F.nodes + 1 + numbers_from (length F.nodes) self.old.course.next) result }
        ensures forks { ForksNext F.nodes (λ b. b.inside.value.course) (λ b. b.inside.value.forked.items) me self.old.course.next self.old.course self.new.course result }
        ensures tasks { self.new.forked.items ≡ self.old.forked.items }
    {
        self.course.stage = FoldStage::Forking(me);
        self.course.next = self.family.next_sibling(child);
        let kind = Kind::Completer {
            relay: true,
            count: 0,
            parent: Some(Serial(me)),
        };
        Ask::Fork(body, kind)
    }

    /// Takes the result of the next child, or ends with the sum where none is left. Precondition: the body is in its completion action.
    fn take(&mut self) -> Ask<TreeFold<'a, F>>
        requires { self.old.course.stage ≡ FoldStage.Taking }
        ensures key { self.new.course.tally.node ≡ self.old.course.tally.node }
        ensures right { AskRight (λ k o. o ≡ node_value F.nodes k) self.old.course.tally.node result }
        ensures nearer { Nearer (turns_left (length F.nodes) self.new.course) (numbers_from (length F.nodes) self.old.course.tally.child + 1) result }
        ensures takes { TakesNext self.old.course.tally self.old.forked.items result }
        ensures course { self.new.course ≡ self.old.course }
        ensures tasks { self.new.forked.items ≡ self.old.forked.items }
    {
        let Some(_child) = self.course.tally.child else {
            return Ask::HookDone(self.course.tally.sum);
        };
        // The child of weight 1 is the first.
        match self.forked.get(self.course.tally.weight as usize - 1) {
            Some(task) => Ask::Take(Serial(*task)),
            // It was never forked.
            None => Ask::HookDone(value_in_place(self.family, self.course.tally.node)),
        }
    }

    /// Adds the value of the next child. Preconditions: the body is in its completion action, `child` is the next child, and `value` its
    /// value.
    fn add(&mut self, child: u32, value: u64) -> Ask<TreeFold<'a, F>>
        requires stage { self.old.course.stage ≡ FoldStage.Taking }
        requires child { self.old.course.tally.child ≡ Some child }
        requires value { value ≡ node_value F.nodes child }
        ensures key { self.new.course.tally.node ≡ self.old.course.tally.node }
        ensures right { AskRight (λ k o. o ≡ node_value F.nodes k) self.old.course.tally.node result }
        ensures nearer { Nearer (turns_left (length F.nodes) self.new.course) (turns_left (length F.nodes) self.old.course) result }
        ensures adds { Adds F.nodes child self.old.course self.new.course }
        ensures takes { TakesNext self.new.course.tally self.old.forked.items result }
        ensures tasks { self.new.forked.items ≡ self.old.forked.items }
    {
        self.course.tally = self.course.tally.add(self.family, child, value);
        self.take()
    }

    /// Fails with the code of `OutOfMemory`.
    fn fail(&mut self) -> Ask<TreeFold<'a, F>>
        ensures key { self.new.course.tally.node ≡ self.old.course.tally.node }
        ensures right { AskRight (λ k o. o ≡ node_value F.nodes k) self.old.course.tally.node result }
        ensures nearer { Nearer 0 0 result }
        ensures fails { Fails self.old.course self.new.course result }
        ensures tasks { self.new.forked.items ≡ self.old.forked.items }
    {
        self.course.stage = FoldStage::Ended;
        Ask::Fail(Refusal::OutOfMemory.number())
    }

    /// Takes a turn. Precondition: a result that it hears is right for its key.
    fn turn(&mut self, heard: Heard<TreeFold<'a, F>>) -> Ask<TreeFold<'a, F>>
        requires { HeardRight (λ k o. o ≡ node_value F.nodes k) heard }
        ensures key { self.new.course.tally.node ≡ self.old.course.tally.node }
        ensures right { AskRight (λ k o. o ≡ node_value F.nodes k) self.old.course.tally.node result }
        ensures nearer { Nearer (turns_left (length F.nodes) self.new.course) (turns_left (length F.nodes) self.old.course) result }
        ensures next { AsksNext F.nodes (λ b. b.inside.value.course) (λ b. b.inside.value.forked.items) self.old.course self.old.forked.items heard.entry self.new.course result }
        ensures tasks { self.new.forked.items ≡ tasks_by self.old.course.stage heard.entry self.old.forked.items }
    {
        // Matched by reference: the prover does not take apart an enum with a `Serial` in a type that holds a reference.
        match &heard {
            Heard::Start(me) => self.begin(me.0),
            Heard::Count(_) => self.added(),
            Heard::Task(child) => self.forked(child.0),
            Heard::Hook(_) => self.hooked(),
            Heard::Got(key, value) => self.got(*key, *value),
            _ => self.go_on_without(),
        }
    }
}

impl<'a, F: NamedTree> Body for TreeFold<'a, F> {
    type Key = u32;

    type Out = u64;

    ghost key_of = { λ b. b.inside.value.course.tally.node };

    ghost rooted_as = { λ b. Some 0 };

    ghost right = { λ k o. o ≡ node_value F.nodes k };

    ghost turns = { λ b. turns_left (length F.nodes) b.inside.value.course };

    fn key(&self) -> &u32 {
        &self.inside.course.tally.node
    }

    fn into_key(self) -> u32 {
        self.inside.course.tally.node
    }

    fn rooted(&self) -> Option<u16> {
        Some(0)
    }

    fn turn(&mut self, heard: Heard<TreeFold<'a, F>>) -> Ask<TreeFold<'a, F>>
        requires { HeardRight (λ k o. o ≡ node_value F.nodes k) heard }
        ensures key { self.new.inside.value.course.tally.node ≡ self.old.inside.value.course.tally.node }
        ensures rooted { ◌≡◌ {A = Option ℕ} (Some 0) (Some 0) }
        ensures right { AskRight (λ k o. o ≡ node_value F.nodes k) self.old.inside.value.course.tally.node result }
        ensures nearer { Nearer (turns_left (length F.nodes) self.new.inside.value.course) (turns_left (length F.nodes) self.old.inside.value.course) result }
        ensures next { AsksNext F.nodes (λ b. b.inside.value.course) (λ b. b.inside.value.forked.items) self.old.inside.value.course self.old.inside.value.forked.items heard.entry self.new.inside.value.course result }
        ensures tasks { self.new.inside.value.forked.items ≡ tasks_by self.old.inside.value.course.stage heard.entry self.old.inside.value.forked.items }
    {
        self.inside.turn(heard)
    }
}
