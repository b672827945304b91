ghost use Rattle.std.specs.Prelude.{◌≡◌, ◌<◌, ◌∷◌, [], ◌++◌, length, IfOk, replicate, ◌-◌, take};
ghost use Rattle.fj_queues.specs.Stacks.{stack_at, with_stack};
ghost use Rattle.fj_rules.specs.Lists.{is_empty};
ghost use Rattle.std.specs.List.{list_all};

use fj_rules::Serial;
use std::alloc::{AllocError, Global};
use std::marker::Model;

/// The stacks of the workers: task numbers, the oldest first. Each has the same room, allocated in `new`.
#[derive(Drop)]
pub struct Stacks {
    stacks: Vec<Vec<Serial>>,
    room: usize,
}

impl Model for Stacks {
    ghost use Rattle.std.specs.Prelude.{◌≤◌, ◌<◌, vec_capacity, All, map};
    ghost use Rattle.fj_queues.specs.Stacks.{StackLists};

    ghost Value = { StackLists };

    ghost view = { λ s. record { lists = map (λ v. v.items) s.stacks.items; room = s.room } };

    ghost invariant = { λ s. All (λ v. s.room ≤ vec_capacity v) s.stacks.items };
}

impl Stacks {
    /// So many empty stacks.
    pub fn new(alloc: Global, workers: usize, room: usize) -> Result<Stacks, AllocError>
        ensures { IfOk result (λ s. s ≡ record { lists = replicate workers []; room = room }) }
    {
        let mut stacks = Vec::with_capacity(alloc, workers)?;
        for _i in 0..workers {
            stacks.push(Vec::with_capacity(alloc, room)?)?;
        }
        Ok(Stacks { stacks, room })
    }

    /// A stack without numbers.
    pub fn none<'a>() -> &'a [Serial]
        ensures { result.now ≡ [] }
    {
        let none: &'a [Serial] = &[];
        none
    }

    /// The stack of a worker.
    #[inline(always)]
    pub fn stack(&self, w: usize) -> &[Serial]
        requires { w < length self.now.lists }
        ensures { result.now ≡ stack_at self.now w }
    {
        self.stacks[w].as_slice()
    }

    /// Whether no stack has a number.
    pub fn are_empty(&self) -> bool
        ensures { result ≡ list_all is_empty self.now.lists }
    {
        for i in 0..self.stacks.len() {
            if !self.is_empty(i) {
                return false;
            }
        }
        true
    }

    /// Whether a worker's stack has no number.
    pub fn is_empty(&self, w: usize) -> bool
        requires { w < length self.now.lists }
        ensures { result ≡ is_empty (stack_at self.now w) }
    {
        self.stack(w).is_empty()
    }

    /// Pushes a number on a worker's stack. Precondition: there is room.
    #[inline(always)]
    pub fn push(&mut self, w: usize, t: Serial)
        requires within { w < length self.old.lists }
        requires room { length (stack_at self.old w) < self.old.room }
        ensures { self.new ≡ with_stack self.old w (stack_at self.old w ++ t ∷ []) }
    {
        self.stacks[w].push_reserved(t);
    }

    /// Pops the top number of a worker's stack, which the caller knows. Precondition: it has one.
    #[inline(always)]
    pub fn take_last(&mut self, w: usize)
        requires within { w < length self.old.lists }
        requires filled { 0 < length (stack_at self.old w) }
        ensures { self.new ≡ with_stack self.old w (take (length (stack_at self.old w) - 1) (stack_at self.old w)) }
    {
        let stack = &mut self.stacks[w];
        stack.truncate(stack.len() - 1);
    }
}
