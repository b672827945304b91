//! Tasks are accepted.
ghost use Rattle.std.specs.Prelude.{◌≡◌, ◌<◌, ◌∷◌, [], None, Some, IfSome, IsSome, length, option_map};
ghost use Rattle.fj_rules.specs.declared.event.Event.TheVariants.{Acc, Make};
ghost use Rattle.fj_rules.specs.declared.kind.Kind.TheVariants.{Completer};
ghost use Rattle.fj_rules.specs.Tasks.{accepted, parent_in};
ghost use Rattle.fj_rules.specs.Allowed.{Allowed};
ghost use Rattle.fj_rules.specs.Pasts.{limit};
ghost use Rattle.fj_rules.specs.Runs.{grown};
ghost use Rattle.fj_tree.specs.Records.{handle_of};

use crate::ledger::Ledger;
use fj_rules::{Event, Kind, Owner, Place, Serial};
use fj_tree::{Handle, Tree};

impl Ledger {
    /// Accepts a task into an owner's queue, with the next number: the event `Acc`.
    ///
    /// Precondition: the parent is that of the kind, the event may follow the history, and there is room for it.
    #[inline(always)]
    pub fn accept(&mut self, owner: &Owner, kind: &Kind, parent: Option<Handle>) -> Serial
        requires parent { option_map (λ p. p.serial) parent ≡ parent_in (Some kind.now) }
        requires may { Allowed self.old.pool self.old.events (Acc (accepted self.old.events) owner.now kind.now) }
        requires fits { length self.old.events < limit self.old }
        ensures number { result ≡ accepted self.old.events }
        ensures events { self.new ≡ grown self.old (Acc (accepted self.old.events) owner.now kind.now ∷ []) }
    {
        let parent = renewed(&self.tree, parent);
        let t = self
            .tree
            .insert(*kind, Place::Queued(*owner), parent)
            .serial;
        self.log.push(Event::Acc(t, *owner, *kind));
        self.queues.push(self.limits.queue_number(*owner), t);
        t
    }

    /// Makes a trigger, with the next number, which is open at once: the event `Make`.
    ///
    /// Precondition: the event may follow the history, and there is room for it.
    pub fn make_trigger(&mut self, relay: bool, count: u32) -> Serial
        requires may { Allowed self.old.pool self.old.events (Make (accepted self.old.events) (Completer relay count None)) }
        requires fits { length self.old.events < limit self.old }
        ensures number { result ≡ accepted self.old.events }
        ensures events { self.new ≡ grown self.old (Make (accepted self.old.events) (Completer relay count None) ∷ []) }
    {
        let h = self.tree.insert(trigger(relay, count), Place::Open, None);
        self.log.push(Event::Make(h.serial, trigger(relay, count)));
        self.open_tasks.push(h.serial, h.key);
        h.serial
    }
}

/// The good handle of a parent. Precondition: it is kept.
#[inline(always)]
fn renewed(tree: &Tree, parent: Option<Handle>) -> Option<Handle>
    requires { IfSome parent (λ p. IsSome (handle_of tree.now p.serial)) }
    ensures number { option_map (λ p. p.serial) result ≡ option_map (λ p. p.serial) parent }
    ensures found { IfSome result (λ p. handle_of tree.now p.serial ≡ Some p) }
{
    match parent {
        None => None,
        Some(p) => Some(tree.renew(p).unwrap()),
    }
}

/// The kind of a trigger.
fn trigger(relay: bool, count: u32) -> Kind
    ensures { result ≡ Completer relay count None }
{
    Kind::Completer {
        relay,
        count,
        parent: None,
    }
}
