ghost use Rattle.std.specs.Prelude.{◌≡◌, ◌<◌, ◌++◌, ◌∷◌, length, IfOk, [], None, Some, IsSome, is_some, ◌↔◌, IsTrue, option_map};
ghost use Rattle.fj_rules.specs.declared.limits.TheConstants.{MAX_TASKS};
ghost use Rattle.fj_slots.specs.Aside.{numbers};
ghost use Rattle.fj_slots.specs.Hands.{HasOnTop, new_hand, hook_number, newest_body, newest_note, with_body, with_hook, with_next_word, with_note, without_hook};

use fj_rules::{MAX_TASKS, Serial, WorkerId};
use std::alloc::{AllocError, Global};
use std::marker::Model;

/// The most tasks that a pool may keep, and so the most bodies that a worker may hold.
const MOST_TASKS: usize = MAX_TASKS as usize;

/// What a worker holds: the bodies that it has begun, each under its task's number, and the hook that it runs, with its body.
///
/// The last body on the stack is the running one; the others wait for tasks that they joined, or help. Only `new` allocates. In Java it is
/// the stack of a `ForkJoinWorkerThread`.
#[derive(Drop)]
pub struct Hand<B> {
    worker: WorkerId,
    word: u32,
    /// The numbers of the tasks, apart from the bodies, so that `holds` compares them fast.
    serials: Vec<Serial>,
    bodies: Vec<B>,
    /// The task that each body joined, while another one runs above it.
    joined: Vec<Option<Serial>>,
    hook: Option<(Serial, B)>,
}

impl<B> Model for Hand<B> {
    ghost use Rattle.std.specs.Prelude.{◌≡◌, ◌≤◌, length, vec_capacity, zip};
    ghost use Rattle.fj_rules.specs.declared.limits.TheConstants.{MAX_TASKS};
    ghost use Rattle.fj_slots.specs.Hands.{HandState};

    ghost Value = { HandState B };

    ghost view = { λ h. record {
      worker = h.worker;
      word = h.word;
      stack = zip h.serials.items h.bodies.items;
      joined = h.joined.items;
      hook = h.hook;
    } };

    ghost invariant = { λ h. record {
      serials_fit : MAX_TASKS ≤ vec_capacity h.serials;
      bodies_fit : MAX_TASKS ≤ vec_capacity h.bodies;
      joined_fit : MAX_TASKS ≤ vec_capacity h.joined;
      few : length h.serials.items ≤ MAX_TASKS;
      one_body_each : length h.bodies.items ≡ length h.serials.items;
      one_note_each : length h.joined.items ≡ length h.serials.items;
    } };
}

impl<B: Drop> Hand<B> {
    /// The empty hand of a worker, with its first scan word. An error only if out of memory.
    pub fn new(alloc: Global, worker: WorkerId, word: u32) -> Result<Hand<B>, AllocError>
        ensures { IfOk result (λ h. h ≡ new_hand worker word) }
    {
        Ok(Hand {
            worker,
            word,
            serials: Vec::with_capacity(alloc, MOST_TASKS)?,
            bodies: Vec::with_capacity(alloc, MOST_TASKS)?,
            joined: Vec::with_capacity(alloc, MOST_TASKS)?,
            hook: None,
        })
    }

    /// The worker whose hand it is.
    #[inline(always)]
    pub fn worker(&self) -> WorkerId
        ensures { result ≡ self.now.worker }
    {
        self.worker
    }

    /// The scan word for one use. The next one is one more, modulo 2^32.
    #[inline(always)]
    pub fn take_word(&mut self) -> u32
        ensures word { result ≡ self.old.word }
        ensures next { self.new ≡ with_next_word self.old }
    {
        let word = self.word;
        self.word = word.wrapping_add(1);
        word
    }

    /// Pushes a body, which runs from now on and has joined nothing. Precondition: the hand has fewer than `MAX_TASKS` bodies.
    #[inline(always)]
    pub fn push(&mut self, t: Serial, body: B)
        requires { length self.old.stack < MAX_TASKS }
        ensures { self.new ≡ with_body self.old t body }
    {
        self.serials.push_reserved(t);
        self.bodies.push_reserved(body);
        self.joined.push_reserved(None);
    }

    /// Pops the running body, with its number, and drops the note of what it joined. Precondition: there is one.
    #[inline(always)]
    pub fn pop(&mut self) -> (Serial, B)
        requires { 0 < length self.old.stack }
        ensures popped { HasOnTop self.old self.new result.0 result.1 }
        ensures room { length self.new.stack < MAX_TASKS }
    {
        let serial = self.serials.pop().unwrap();
        let body = self.bodies.pop().unwrap();
        let _note = self.joined.pop().unwrap();
        (serial, body)
    }

    /// Notes what the running body joined, a task or none. Without a body it does nothing.
    #[inline(always)]
    pub fn note_join(&mut self, joined: Option<Serial>)
        ensures { self.new ≡ with_note self.old joined }
    {
        if let Some(note) = self.joined.last_mut() {
            *note = joined;
        }
    }

    /// The task that the running body joined, as last noted. None if none was noted, or there is no body.
    #[inline(always)]
    pub fn joined(&self) -> Option<Serial>
        ensures { result ≡ newest_note self.now.joined }
    {
        match self.joined.last() {
            Some(note) => *note,
            None => None,
        }
    }

    /// The task of the running body, if there is one.
    #[inline(always)]
    pub fn running(&self) -> Option<Serial>
        ensures { result ≡ hook_number (newest_body self.now.stack) }
    {
        self.serials.last().copied()
    }

    /// Whether there is no body and no hook.
    #[inline(always)]
    pub fn is_empty(&self) -> bool
        ensures { IsTrue result ↔ (self.now.stack ≡ []) × (self.now.hook ≡ None) }
    {
        self.serials.is_empty() && self.hook.is_none()
    }

    /// Sets the hook: this completer's, with its body.
    #[inline(always)]
    pub fn give_hook(&mut self, c: Serial, body: B)
        ensures { self.new ≡ with_hook self.old c body }
    {
        self.hook = Some((c, body));
    }

    /// Takes the hook out, with its body. Precondition: there is one.
    #[inline(always)]
    pub fn take_hook(&mut self) -> (Serial, B)
        requires { IsSome self.old.hook }
        ensures hook { self.old.hook ≡ Some (result.0, result.1) }
        ensures rest { self.new ≡ without_hook self.old }
    {
        self.hook.take().unwrap()
    }

    /// The completer whose hook it has, if it has one.
    #[inline(always)]
    pub fn hooked(&self) -> Option<Serial>
        ensures { result ≡ hook_number self.now.hook }
    {
        match &self.hook {
            Some(hook) => Some(hook.0),
            None => None,
        }
    }

    /// Whether these are the numbers of the bodies, the oldest first.
    #[inline(always)]
    pub fn holds(&self, serials: &[Serial]) -> bool
        ensures { IsTrue result ↔ (numbers self.now.stack ≡ serials.now) }
    {
        if self.serials.len() != serials.len() {
            return false;
        }
        let mut same = true;
        for i in 0..serials.len() {
            // Without a branch, so that the compiler can vectorize it.
            same &= self.serials[i] == serials[i];
        }
        same
    }
}
