ghost use Rattle.std.specs.Prelude.{◌≡◌, ◌<◌, ◌∷◌, [], ◌++◌, length, OnOk};

use fj_rules::Sealed;
use std::alloc::{AllocError, Global};
use std::marker::Model;
use std::mem;
use std::snapshot::Snapshot;

/// The sealed parts of a history, in order: first those that were handed out, then those that are kept. Java has no counterpart.
///
/// Only proofs read the parts that were handed out: at run time nothing of them is kept.
#[derive(Drop)]
pub struct Archive {
    // the archive as it was when parts were last taken from it: a value without bytes
    before: Option<Snapshot<Archive>>,
    kept: Vec<Sealed>,
}

impl Model for Archive {
    ghost use Rattle.std.specs.Prelude.{length, vec_capacity, option_map};
    ghost use Rattle.fj_calls.specs.Archives.{Archived, HadParts, handed_in};

    ghost Value = { Archived };

    ghost view = { λ a. record {
      handed = handed_in (option_map (λ s. s.value) a.before);
      kept = a.kept.items;
      room = vec_capacity a.kept;
    } };

    ghost invariant = { λ a. HadParts (option_map (λ s. s.value) a.before) };

    // each archive in `before` had handed out fewer parts
    ghost size = { λ v. length v.handed };
}

impl Archive {
    /// No parts, none handed out, and room for none.
    pub fn new(alloc: Global) -> Archive
        ensures { result ≡ record { handed = []; kept = []; room = 0 } }
    {
        Archive {
            before: None,
            kept: Vec::new(alloc),
        }
    }

    /// Reserves room for one more part. An error changes nothing but the room.
    pub fn reserve(&mut self) -> Result<(), AllocError>
        ensures room { OnOk result (length self.new.kept < self.new.room) }
        ensures same { self.new ≡ record self.old { room = self.new.room } }
    {
        self.kept.reserve(1)
    }

    /// Appends a part. Precondition: there is room for it.
    pub fn push(&mut self, part: Sealed)
        requires { length self.old.kept < self.old.room }
        ensures { self.new ≡ record self.old { kept = self.old.kept ++ part ∷ [] } }
    {
        self.kept.push_reserved(part);
    }

    /// Hands out the kept parts, the oldest first. It allocates nothing.
    pub fn take(&mut self, alloc: Global) -> Vec<Sealed>
        ensures parts { result.items ≡ self.old.kept }
        ensures handed { self.new ≡ record { handed = self.old.handed ++ self.old.kept; kept = []; room = self.new.room } }
    {
        if self.kept.is_empty() {
            return Vec::new(alloc);
        }
        let before = Snapshot::of(&*self);
        let parts = mem::replace(&mut self.kept, Vec::new(alloc));
        self.before = Some(before);
        parts
    }

    /// The parts that are kept, the oldest first.
    pub fn as_slice(&self) -> &[Sealed]
        ensures { result.now ≡ self.now.kept }
    {
        self.kept.as_slice()
    }

    /// The same, consuming the archive.
    pub fn into_kept(self) -> Vec<Sealed>
        ensures { result.items ≡ self.kept }
    {
        self.kept
    }
}
