ghost use Rattle.std.specs.Prelude.{◌≡◌, ◌+◌, true, false};
ghost use Rattle.fj_rules.specs.Lists.{is_in};
ghost use Rattle.fj_bodies.specs.DueTasks.{AreDue};
ghost use Rattle.fj_bodies.specs.Waits.{AreWaiting, NoneGoesFrom, ReleasesDue, ReleasesFrom, ReleasesHere, ReleasesUp, Tries, waits};

use crate::due::Due;
use crate::hooked::is_hooked;
use crate::tries::{HistoryFull, Tried};
use fj_machine::Machine;
use fj_rules::{Refusal, Said, Serial, Step};
use fj_slots::SerialSet;

/// Releases those taken tasks that can be released: the due one, then its parent, and so on. All of them are tried only if any may be due, as
/// after a stop, or if the store is stuck. If the history is full, it is stuck from now on. Precondition: unless it is stuck, only due tasks
/// can be released.
#[inline(always)]
pub fn release_due(machine: &mut Machine, taken: &mut SerialSet, stuck: &mut bool, due: Due)
    requires waiting { AreWaiting (waits machine.old taken.old) }
    requires due { stuck.old ≡ false → AreDue machine.old.events taken.old.items due }
    ensures waiting { AreWaiting (waits machine.new taken.new) }
    ensures releases { ReleasesDue (waits machine.old taken.old) stuck.old (waits machine.new taken.new) stuck.new }
{
    if taken.as_slice().is_empty() {
        return;
    }
    match release_found(machine, taken, *stuck, due) {
        Ok(()) => {}
        Err(HistoryFull) => *stuck = true,
    }
}

/// Releases from the due task upwards, or tries all.
fn release_found(
    machine: &mut Machine,
    taken: &mut SerialSet,
    stuck: bool,
    due: Due,
) -> Result<(), HistoryFull>
    requires waiting { AreWaiting (waits machine.old taken.old) }
    requires due { stuck ≡ false → AreDue machine.old.events taken.old.items due }
    ensures waiting { AreWaiting (waits machine.new taken.new) }
    ensures releases { ReleasesFrom 0 (waits machine.old taken.old) result (waits machine.new taken.new) }
{
    if stuck {
        return release_all(machine, taken);
    }
    match due {
        Due::Nothing => Ok(()),
        Due::One(t) => release_up(machine, taken, t),
        Due::All => release_all(machine, taken),
    }
}

/// Releases all taken tasks that can be released: from each one upwards, the newest first. A release enables at most that of its parent, so one
/// pass is enough.
fn release_all(machine: &mut Machine, taken: &mut SerialSet) -> Result<(), HistoryFull>
    requires { AreWaiting (waits machine.old taken.old) }
    ensures waiting { AreWaiting (waits machine.new taken.new) }
    ensures releases { ReleasesFrom 0 (waits machine.old taken.old) result (waits machine.new taken.new) }
{
    let mut i = taken.as_slice().len();
    while i > 0 {
        i -= 1;
        release_from(machine, taken, i)?;
    }
    Ok(())
}

/// Releases from the taken task at this index upwards, if there is one: earlier releases may have left fewer. Precondition: no taken task behind
/// this index can be released.
fn release_from(machine: &mut Machine, taken: &mut SerialSet, i: usize) -> Result<(), HistoryFull>
    requires waiting { AreWaiting (waits machine.old taken.old) }
    requires none { NoneGoesFrom (i + 1) (waits machine.old taken.old) }
    ensures waiting { AreWaiting (waits machine.new taken.new) }
    ensures releases { ReleasesFrom i (waits machine.old taken.old) result (waits machine.new taken.new) }
{
    if i >= taken.as_slice().len() {
        return Ok(());
    }
    let t = taken.as_slice()[i];
    release_up(machine, taken, t)
}

/// Releases a task if it was taken and can be released, then likewise its parent, and so on.
fn release_up(machine: &mut Machine, taken: &mut SerialSet, t: Serial) -> Result<(), HistoryFull>
    requires { AreWaiting (waits machine.old taken.old) }
    ensures waiting { AreWaiting (waits machine.new taken.new) }
    ensures releases { ReleasesUp t (waits machine.old taken.old) result (waits machine.new taken.new) }
{
    let mut next = Some(t);
    while let Some(u) = next {
        next = release_here(machine, taken, u)?;
    }
    Ok(())
}

/// Releases a task if it was taken and can be released. Returns its parent, if it was released and has one.
fn release_here(
    machine: &mut Machine,
    taken: &mut SerialSet,
    t: Serial,
) -> Result<Option<Serial>, HistoryFull>
    requires { AreWaiting (waits machine.old taken.old) }
    ensures waiting { AreWaiting (waits machine.new taken.new) }
    ensures releases { ReleasesHere t (waits machine.old taken.old) result (waits machine.new taken.new) }
{
    if !taken.has(t) {
        return Ok(None);
    }
    let parent = machine.parent(t);
    match try_release(machine, taken, t) {
        Tried::Released => Ok(parent),
        Tried::Needed => Ok(None),
        Tried::Full => Err(HistoryFull),
    }
}

/// Releases a task, if it can be. Precondition: it was taken.
fn try_release(machine: &mut Machine, taken: &mut SerialSet, t: Serial) -> Tried
    requires waiting { AreWaiting (waits machine.old taken.old) }
    requires taken { is_in t taken.old.items ≡ true }
    ensures waiting { AreWaiting (waits machine.new taken.new) }
    ensures tries { Tries (waits machine.old taken.old) t result (waits machine.new taken.new) }
{
    if is_hooked(machine, t) {
        return Tried::Needed;
    }
    match machine.step(&Step::Release { t }) {
        Said::Done => {
            taken.take_out(t);
            Tried::Released
        }
        Said::Refused(refusal) => match refusal {
            Refusal::LogFull => Tried::Full,
            _ => Tried::Needed,
        },
        _ => unreachable!(),
    }
}
