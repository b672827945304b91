//! The deed of each event, on a ledger.
ghost use Rattle.std.specs.Prelude.{◌≡◌, ◌<◌, ◌∷◌, [], None, Some, length};
ghost use Rattle.fj_rules.specs.declared.event.Event.TheVariants.{Acc, Make, Dec, Fire, Pass, Hooked};
ghost use Rattle.fj_rules.specs.Allowed.{MayTake};
ghost use Rattle.fj_rules.specs.Answers.{taking};
ghost use Rattle.fj_rules.specs.Follows.{Follows};
ghost use Rattle.fj_rules.specs.Hooks.{goes_to, hand};
ghost use Rattle.fj_rules.specs.Pasts.{grown, limit};
ghost use Rattle.fj_checker.specs.Remembered.{IsHandOf};

use crate::rules::takes::queue_with;
use fj_ledger::Ledger;
use fj_rules::{Event, How, Kind, Owner, Serial, WorkerId};

/// Appends the event. Precondition: it follows, and this is the worker of its hook, if it is of one.
pub fn go_on(ledger: &mut Ledger, event: &Event, hand: Option<WorkerId>)
    requires follows { Follows ledger.old event.now }
    requires hand { IsHandOf ledger.old.pool ledger.old.events event.now hand }
    ensures { ledger.new ≡ grown ledger.old (event.now ∷ []) }
{
    // For the proof: the history of a ledger is lawful.
    let _lawful = ledger.is_stopped();
    match event {
        Event::Acc(t, owner, kind) => accept(ledger, *t, owner, kind),
        Event::Make(t, kind) => make(ledger, *t, kind),
        Event::Out(t, w) | Event::Skip(t, w) => take(ledger, *t, *w),
        Event::End(t, w) => ledger.end_body(ledger.named(*t), *w),
        Event::Add(c, n) => ledger.raise(ledger.named(*c), *n),
        Event::Dec(c) => ledger.count_down(ledger.named(*c)),
        Event::Fire(c, how) => fire(ledger, *c, *how, hand),
        Event::Pass(c) => ledger.pass(ledger.named(*c)),
        Event::Hooked(c) => end_hook(ledger, *c, hand),
        Event::Settle(t, status) => ledger.settle(ledger.named(*t), *status),
        Event::Close => ledger.close_pool(),
        Event::Stop => ledger.stop_pool(),
        Event::Rel(t) => ledger.release(ledger.named(*t)),
    }
}

fn accept(ledger: &mut Ledger, t: Serial, owner: &Owner, kind: &Kind)
    requires { Follows ledger.old (Acc t owner.now kind.now) }
    ensures { ledger.new ≡ grown ledger.old (Acc t owner.now kind.now ∷ []) }
{
    // The number is the next one.
    let _ = t;
    let parent = kind.parent().map(|p| ledger.named(p));
    ledger.accept(owner, kind, parent);
}

fn make(ledger: &mut Ledger, t: Serial, kind: &Kind)
    requires { Follows ledger.old (Make t kind.now) }
    ensures { ledger.new ≡ grown ledger.old (Make t kind.now ∷ []) }
{
    // The number is the next one.
    let _ = t;
    ledger.make_trigger(kind.relays(), kind.count());
}

/// A task leaves its queue, to be run if it is undone.
fn take(ledger: &mut Ledger, t: Serial, w: WorkerId)
    requires may { MayTake ledger.old.pool ledger.old.events t w }
    requires fits { length ledger.old.events < limit ledger.old }
    ensures { ledger.new ≡ grown ledger.old (taking ledger.old.events w (Some t)) }
{
    // For the proof: the history of a ledger is lawful.
    let _lawful = ledger.is_stopped();
    let Some((q, _)) = queue_with(ledger, t) else {
        unreachable!();
    };
    let Some(source) = ledger.chosen(w, q) else {
        unreachable!();
    };
    ledger.take(w, source);
}

fn fire(ledger: &mut Ledger, c: Serial, how: How, to: Option<WorkerId>)
    requires follows { Follows ledger.old (Fire c how) }
    requires hand { to ≡ goes_to ledger.old.events c }
    ensures { ledger.new ≡ grown ledger.old (Fire c how ∷ []) }
{
    // For the proof: the history of a ledger is lawful.
    let _lawful = ledger.is_stopped();
    let Some(w) = to else {
        unreachable!();
    };
    ledger.fire(ledger.named(c), w, how);
}

fn end_hook(ledger: &mut Ledger, c: Serial, from: Option<WorkerId>)
    requires follows { Follows ledger.old (Hooked c) }
    requires hand { IsHandOf ledger.old.pool ledger.old.events (Hooked c) from }
    ensures { ledger.new ≡ grown ledger.old (Hooked c ∷ []) }
{
    let Some(w) = from else {
        unreachable!();
    };
    ledger.end_hook(ledger.named(c), w);
}
