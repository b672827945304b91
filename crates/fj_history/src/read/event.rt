//! The lines of events, by what follows their first word.
ghost use Rattle.fj_lines.specs.Words.{words_behind, Reads};
ghost use Rattle.fj_history.specs.EntryReadings.{acc_in, make_in, out_in, skip_in, end_in, add_in, dec_in, fire_in, pass_in, hooked_in, settle_in, rel_in};

use crate::entry::Entry;
use crate::read::parts;
use fj_lines::{LineFault, next_number, next_word, no_more, one_number, two_numbers};
use fj_rules::{Event, Serial, WorkerId};

/// Reads what follows `acc`: the task, the owner of the queue, and the kind.
#[tactic(auto, unfolding(crate::specs::EntryReadings::acc_in))]
pub fn acc(behind: &[u8]) -> Result<Entry, LineFault>
    ensures { Reads (acc_in (words_behind behind.now)) result }
{
    let (t, behind) = next_number(behind)?;
    let (word, behind) = next_word(behind)?;
    let (n, behind) = next_number(behind)?;
    let owner = parts::owner(word, n)?;
    let kind = parts::kind(behind)?;
    Ok(Entry::Event(Event::Acc(Serial(u64::from(t)), owner, kind)))
}

/// Reads what follows `make`: the trigger and its kind.
#[tactic(auto, unfolding(crate::specs::EntryReadings::make_in))]
pub fn make(behind: &[u8]) -> Result<Entry, LineFault>
    ensures { Reads (make_in (words_behind behind.now)) result }
{
    let (t, behind) = next_number(behind)?;
    let kind = parts::kind(behind)?;
    Ok(Entry::Event(Event::Make(Serial(u64::from(t)), kind)))
}

/// Reads what follows `fire`: the completer, and why its completion action was handed out.
#[tactic(auto, unfolding(crate::specs::EntryReadings::fire_in))]
pub fn fire(behind: &[u8]) -> Result<Entry, LineFault>
    ensures { Reads (fire_in (words_behind behind.now)) result }
{
    let (c, behind) = next_number(behind)?;
    let (word, behind) = next_word(behind)?;
    let how = parts::how(word)?;
    no_more(behind)?;
    Ok(Entry::Event(Event::Fire(Serial(u64::from(c)), how)))
}

/// Reads what follows `settle`: the task and its status.
#[tactic(auto, unfolding(crate::specs::EntryReadings::settle_in))]
pub fn settle(behind: &[u8]) -> Result<Entry, LineFault>
    ensures { Reads (settle_in (words_behind behind.now)) result }
{
    let (t, behind) = next_number(behind)?;
    let status = parts::status(behind)?;
    Ok(Entry::Event(Event::Settle(Serial(u64::from(t)), status)))
}

/// Reads what follows `add`: the completer and what was added.
#[tactic(auto, unfolding(crate::specs::EntryReadings::add_in))]
pub fn add(behind: &[u8]) -> Result<Entry, LineFault>
    ensures { Reads (add_in (words_behind behind.now)) result }
{
    let (c, n) = two_numbers(behind)?;
    Ok(Entry::Event(Event::Add(Serial(u64::from(c)), n)))
}

/// Reads what follows `out`: the task and the worker.
#[tactic(auto, unfolding(crate::specs::EntryReadings::out_in))]
pub fn out(behind: &[u8]) -> Result<Entry, LineFault>
    ensures { Reads (out_in (words_behind behind.now)) result }
{
    let (t, w) = two_numbers(behind)?;
    Ok(Entry::Event(Event::Out(Serial(u64::from(t)), WorkerId(w))))
}

/// Reads what follows `skip`: the task and the worker.
#[tactic(auto, unfolding(crate::specs::EntryReadings::skip_in))]
pub fn skip(behind: &[u8]) -> Result<Entry, LineFault>
    ensures { Reads (skip_in (words_behind behind.now)) result }
{
    let (t, w) = two_numbers(behind)?;
    Ok(Entry::Event(Event::Skip(Serial(u64::from(t)), WorkerId(w))))
}

/// Reads what follows `end`: the task and the worker.
#[tactic(auto, unfolding(crate::specs::EntryReadings::end_in))]
pub fn end(behind: &[u8]) -> Result<Entry, LineFault>
    ensures { Reads (end_in (words_behind behind.now)) result }
{
    let (t, w) = two_numbers(behind)?;
    Ok(Entry::Event(Event::End(Serial(u64::from(t)), WorkerId(w))))
}

/// Reads what follows `dec`: the task.
#[tactic(auto, unfolding(crate::specs::EntryReadings::dec_in))]
pub fn dec(behind: &[u8]) -> Result<Entry, LineFault>
    ensures { Reads (dec_in (words_behind behind.now)) result }
{
    let t = one_number(behind)?;
    Ok(Entry::Event(Event::Dec(Serial(u64::from(t)))))
}

/// Reads what follows `pass`: the task.
#[tactic(auto, unfolding(crate::specs::EntryReadings::pass_in))]
pub fn pass(behind: &[u8]) -> Result<Entry, LineFault>
    ensures { Reads (pass_in (words_behind behind.now)) result }
{
    let t = one_number(behind)?;
    Ok(Entry::Event(Event::Pass(Serial(u64::from(t)))))
}

/// Reads what follows `hooked`: the task.
#[tactic(auto, unfolding(crate::specs::EntryReadings::hooked_in))]
pub fn hooked(behind: &[u8]) -> Result<Entry, LineFault>
    ensures { Reads (hooked_in (words_behind behind.now)) result }
{
    let t = one_number(behind)?;
    Ok(Entry::Event(Event::Hooked(Serial(u64::from(t)))))
}

/// Reads what follows `rel`: the task.
#[tactic(auto, unfolding(crate::specs::EntryReadings::rel_in))]
pub fn rel(behind: &[u8]) -> Result<Entry, LineFault>
    ensures { Reads (rel_in (words_behind behind.now)) result }
{
    let t = one_number(behind)?;
    Ok(Entry::Event(Event::Rel(Serial(u64::from(t)))))
}
