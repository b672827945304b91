ghost use Rattle.std.specs.Prelude.{◌≡◌, ◌++◌, ◌∷◌, [], ℕ, List, not, ◌+◌, ◌≤◌, if◌then◌else◌, length, IfOk, IsOk, OnOk, OnErr, false, string_bytes, string_capacity, string_len};
ghost use Rattle.fj_lines.specs.declared.name.TheConstants.{MAX_NAME};
ghost use Rattle.fj_replay.specs.Namings.{number_of, is_taken, numbered_parent, numbered_kind, told_line};
ghost use Rattle.fj_replay.specs.Plays.{asked_by};

use crate::asked::Asked;
use crate::pushes::push_words;
use fj_lines::{Line2, MAX_NAME, Name, NamedKind};
use fj_rules::{Kind, Serial, Step};
use indexmap::IndexSet;
use std::alloc::{AllocError, Global};
use std::marker::Model;

/// The names of a script's tasks, in order of acceptance: the index of each is its task's number.
///
/// Look-ups by name and by number take constant time, on average.
#[derive(Drop)]
pub struct Names {
    set: IndexSet<Name>,
}

impl Model for Names {
    ghost use Rattle.std.specs.Prelude.{ℕ, List};

    ghost Value = { List (List ℕ) };

    ghost view = { λ n. n.set.keys };
}

impl Names {
    /// No name.
    pub fn new(alloc: Global) -> Names
        ensures { result ≡ [] }
    {
        Names {
            set: IndexSet::new(alloc),
        }
    }

    /// The number of the task with this name; the number of the next task if the name belongs to none.
    pub fn number(&self, name: &Name) -> Serial
        ensures { result ≡ number_of self.now name.now }
    {
        let place = self.set.get_index_of(name).unwrap_or(self.set.len());
        Serial(place as u64)
    }

    /// Gives the next task this name if it is free; otherwise answers false and changes nothing. An error comes where the name is free and the
    /// table can't grow.
    pub fn add(&mut self, name: Name) -> Result<bool, AllocError>
        ensures free { IfOk result (λ free. free ≡ not (is_taken self.old name)) }
        ensures names { OnOk result (self.new ≡ (if is_taken self.old name then self.old else self.old ++ name ∷ [])) }
        ensures err { OnErr result (is_taken self.old name ≡ false) }
    {
        let free = self.set.insert(name)?;
        Ok(free)
    }

    /// Removes the last name.
    pub fn take_back(&mut self)
        ensures { (before : List (List ℕ)) (last : List ℕ) → self.old ≡ before ++ last ∷ [] → self.new ≡ before }
    {
        let _ = self.set.pop();
    }

    /// What a line asks for, with these names.
    pub fn asked(&self, line: Line2) -> Asked
        ensures { result ≡ asked_by self.now line }
    {
        match line {
            Line2::Submit { name, s, kind } => Asked::Accept(name, Step::Submit { s, kind }),
            Line2::Fork { name, w, kind } => {
                let kind = self.kind(kind);
                Asked::Accept(name, Step::Fork { w, kind })
            }
            Line2::Trigger { name, w, count } => Asked::Accept(name, Step::Trigger { w, count }),
            Line2::Poll { w, r } => Asked::Step(Step::Poll { w, r }),
            Line2::Help { w, r } => Asked::Step(Step::Help { w, r }),
            Line2::Join { w, t, r } => {
                let t = self.number(&t);
                Asked::Step(Step::Join { w, t, r })
            }
            Line2::End { w, ending } => Asked::Step(Step::End { w, ending }),
            Line2::HookDone { w } => Asked::Step(Step::HookDone { w }),
            Line2::Add { w, c, n } => {
                let c = self.number(&c);
                Asked::Step(Step::Add { w, c, n })
            }
            Line2::QuietRoot { w, t } => {
                let t = self.number(&t);
                Asked::Step(Step::QuietRoot { w, t })
            }
            Line2::Fault { t, code } => {
                let t = self.number(&t);
                Asked::Step(Step::Fault { t, code })
            }
            Line2::Cancel { t } => Asked::Step(Step::Cancel { t: self.number(&t) }),
            Line2::Shutdown => Asked::Step(Step::Shutdown),
            Line2::Stop => Asked::Step(Step::Stop),
            Line2::IsQuiescent => Asked::Step(Step::IsQuiescent),
            Line2::State { t } => Asked::Step(Step::State { t: self.number(&t) }),
            Line2::Release { t } => Asked::Step(Step::Release { t: self.number(&t) }),
            Line2::Seal => Asked::Seal,
            Line2::Epoch => Asked::Epoch,
        }
    }

    fn kind(&self, kind: NamedKind) -> Kind
        ensures { result ≡ numbered_kind self.now kind }
    {
        match kind {
            NamedKind::Plain => Kind::Plain,
            NamedKind::Completer {
                relay,
                count,
                parent,
            } => Kind::Completer {
                relay,
                count,
                parent: self.parent(parent),
            },
        }
    }

    fn parent(&self, parent: Option<Name>) -> Option<Serial>
        ensures { result ≡ numbered_parent self.now parent }
    {
        match parent {
            None => None,
            Some(name) => Some(self.number(&name)),
        }
    }

    /// Appends a line of two words, the second the name of a task. An error comes where the text can't grow, never where it has
    /// [`REPLY_ROOM`](fj_lines::REPLY_ROOM) left and the first word is as long as one of a reply; then a part of the line may be appended.
    pub fn push_told(&self, verb: &str, t: Serial, text: &mut String) -> Result<(), AllocError>
        ensures line { OnOk result (string_bytes text.new ≡ string_bytes text.old ++ told_line self.now verb.now t) }
        ensures fits { string_len text.old + length verb.now + MAX_NAME + 2 ≤ string_capacity text.old → IsOk result }
        ensures room { string_capacity text.old ≤ string_capacity text.new }
    {
        match self.set.get_index(t.0 as usize) {
            Some(name) => push_words(text, verb, name.as_str()),
            None => push_words(text, verb, ""),
        }
    }
}
