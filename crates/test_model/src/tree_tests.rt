ghost use Rattle.std.specs.Prelude.{IsTrue};
ghost use Rattle.fj_tree.specs.Records.{IsCompleter};

use fj_model::{Kind, Place, Refusal, Serial, Status};
use fj_tree::*;
use std::alloc::Global;
use std::marker::Model;
use std::test::Fail;

/// Whether the handle names a completer.
fn names_completer(tree: &Tree, h: Handle) -> bool
    ensures { IsTrue result → IsCompleter tree.now h }
{
    match tree.get(h) {
        Some(record) => matches!(record.kind, Kind::Completer { .. }),
        None => false,
    }
}

/// A tree whose tasks have been made one by one.
#[derive(Drop)]
struct Trial {
    tree: Tree,
    makes: u64,
}

impl Model for Trial {
    ghost use Rattle.std.specs.Prelude.{◌≤◌, ℕ};

    ghost Value = { ℕ };

    ghost view = { λ t. t.makes };

    ghost invariant = { λ t. t.tree.made ≤ t.makes };
}

impl Trial {
    fn new(alloc: Global, room: usize) -> Result<Trial, Fail> {
        let tree = Tree::new(alloc, room)?;
        Ok(Trial { tree, makes: 0 })
    }

    /// A new task. None behind 100,000 of them.
    fn make(&mut self, kind: Kind, place: Place) -> Option<Result<Handle, Refusal>> {
        if self.makes >= 100_000 {
            return None;
        }
        self.makes += 1;
        Some(self.tree.make(kind, place))
    }

    /// A new open completer below this one.
    fn make_below(&mut self, parent: Option<Serial>) -> Option<Handle> {
        let kind = Kind::Completer {
            relay: true,
            count: 0,
            parent,
        };
        self.make(kind, Place::Open)?.ok()
    }

    /// `arrival`, then `arrive`: none where they differ.
    fn arrive(&mut self, h: Handle) -> Option<Arrived> {
        if !names_completer(&self.tree, h) {
            return None;
        }
        let seen = self.tree.arrival(h);
        let done = self.tree.arrive(h);
        if seen == done { Some(done) } else { None }
    }

    /// `pass_look`, then `pass_up`: how many were passed; none where they differ.
    fn pass(&mut self, h: Handle) -> Option<u64> {
        if !names_completer(&self.tree, h) {
            return None;
        }
        let seen = self.tree.pass_look(h);
        let done = self.tree.pass_up(h);
        if seen == done {
            Some(done.passed)
        } else {
            None
        }
    }

    /// `relay_look`, then `relay_up`: how many took the status; none where they differ.
    fn relay(&mut self, h: Handle, status: Status) -> Option<u64> {
        self.tree.get(h)?;
        let seen = self.tree.relay_look(h);
        let done = self.tree.relay_up(h, status);
        if seen == done { Some(done) } else { None }
    }

    /// Makes a task and releases it, so many times from this number on. Answers whether each was found in between, and not behind it.
    fn come_and_go(&mut self, from: u64, count: u64) -> bool {
        for number in from..from.saturating_add(count) {
            let Some(Ok(h)) = self.make(Kind::Plain, Place::Gone) else {
                return false;
            };
            if self.tree.find(Serial(number)) != Some(h) || self.tree.release(h).is_err() {
                return false;
            }
            if self.tree.find(Serial(number)).is_some() {
                return false;
            }
        }
        true
    }
}

/// Of few records, and of as many as there may be. It allocates only where it is made, and `tests/refused_memory/makings.sh` refuses that.
#[test]
fn a_task_is_found_behind_thousands_that_were_released(rt: HostRuntime) -> Result<(), Fail> {
    for room in [2, 3, 4096] {
        let mut trial = Trial::new(rt.alloc(), room)?;
        assert!(rt; trial.make(Kind::Plain, Place::Open).is_some());
        let came = trial.come_and_go(1, 20_000);
        assert!(rt; came, "room for {room}");
        assert!(rt; trial.tree.find(Serial(0)).is_some(), "room for {room}");
        assert_eq!(rt; trial.tree.len(), 1);
    }
    Ok(())
}

/// Two completers below a root: an arrival at one, a climb from it, and a failure of the other.
#[test]
fn a_tree_is_climbed(rt: HostRuntime) -> Result<(), Fail> {
    let mut trial = Trial::new(rt.alloc(), 3)?;
    let Some(root) = trial.make_below(None) else {
        panic!(&rt; "no root");
    };
    let (Some(one), Some(other)) = (
        trial.make_below(Some(root.serial)),
        trial.make_below(Some(root.serial)),
    ) else {
        panic!(&rt; "no children");
    };
    let added = trial.tree.add(one, 1);
    let arrived = [trial.arrive(one), trial.arrive(one)];
    let failed = trial.relay(other, Status::Exceptional(7));
    let passed = trial.pass(one);
    assert_eq!(rt; added, Ok(1));
    assert_eq!(rt; arrived, [Some(Arrived::Counted), Some(Arrived::Fire)]);
    assert_eq!(rt; (failed, passed), (Some(2), Some(0)));
    Ok(())
}
