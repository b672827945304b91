ghost use Rattle.std.specs.Prelude.{◌≡◌, ℕ, Some, IfOk, IfErr, OnOk};
ghost use Rattle.fj_lines.specs.Headings.{pool_in, start};
ghost use Rattle.fj_history.specs.declared.read.TheConstants.{MAX_ENTRY};
ghost use Rattle.fj_history.specs.declared.entry.Entry.{Entry as EntryCase};
ghost use Rattle.fj_check.specs.Entries.{MayCome, past_after};
ghost use Rattle.fj_check.specs.Rules.{after, came, check_rules, IsHeadStop, IsEntryStop, IsStopAt};
ghost use Rattle.fj_check.specs.LongLines.{too_long};

use crate::history_stop::HistoryStop;
use fj_checker::Checker;
use fj_history::{Entry, MAX_ENTRY, read_entry};
use fj_lines::read_head;
use fj_rules::{Event, Limits, Mode};
use fj_streams::{LineFilter, LineStop, Sink};
use std::alloc::Global;
use std::mem;

/// The state of reading a history.
#[derive(Drop)]
pub enum HistoryCheck {
    /// Before its heading.
    Start,
    /// Behind its heading: what has happened so far, and how many events that are.
    Going(Checker, u64),
}

impl LineFilter for HistoryCheck {
    type Stop = HistoryStop;

    ghost rules = { check_rules };

    ghost too_long = { too_long };

    fn longest() -> usize {
        MAX_ENTRY
    }

    fn advance<W: Sink>(
        &mut self,
        alloc: Global,
        line: &[u8],
        w: &mut W,
    ) -> Result<(), LineStop<HistoryStop>> {
        // Nothing is written.
        let _ = w;
        match self {
            HistoryCheck::Start => self.begin(alloc, line),
            HistoryCheck::Going(checker, events) => go_on(alloc, checker, events, line),
        }
    }

    fn has_heading(&self) -> bool {
        matches!(self, HistoryCheck::Going(_, _))
    }
}

impl HistoryCheck {
    /// Handles the heading, at `Start`.
    fn begin(&mut self, alloc: Global, line: &[u8]) -> Result<(), LineStop<HistoryStop>>
        ensures next { OnOk result (after HistoryCheck.Start line.now ≡ Some self.new) }
        ensures err { IfErr result (IsHeadStop line.now) }
    {
        let checker = opened(alloc, line)?;
        // An explicit drop is proved faster than an assignment.
        drop(mem::replace(self, HistoryCheck::Going(checker, 0)));
        Ok(())
    }
}

/// A checker by the heading, before anything has happened.
fn opened(alloc: Global, heading: &[u8]) -> Result<Checker, LineStop<HistoryStop>>
    ensures pool { IfOk result (λ c. (pool_in heading.now ≡ Some c.pool) × (c ≡ start c.pool)) }
    ensures err { IfErr result (IsHeadStop heading.now) }
{
    let (mode, limits) = read_heading(heading)?;
    match Checker::new(alloc, mode, limits) {
        Ok(checker) => Ok(checker),
        Err(_) => Err(LineStop::Memory),
    }
}

/// The mode and the limits in a heading: `Line` where it is none, `Limits` where one is out of its range.
pub fn read_heading(heading: &[u8]) -> Result<(Mode, Limits), LineStop<HistoryStop>>
    ensures pool { IfOk result (λ p. pool_in heading.now ≡ Some (record { mode = p.0; limits = p.1 })) }
    ensures err { IfErr result (IsHeadStop heading.now) }
{
    let Ok(head) = read_head(heading) else {
        return Err(LineStop::Stop(HistoryStop::Line));
    };
    let numbers = head.1;
    match Limits::new(numbers[0], numbers[1], numbers[2], numbers[3]) {
        Ok(limits) => Ok((head.0, limits)),
        Err(_) => Err(LineStop::Stop(HistoryStop::Limits)),
    }
}

/// Handles a line behind the heading.
fn go_on(
    alloc: Global,
    checker: &mut Checker,
    events: &mut u64,
    line: &[u8],
) -> Result<(), LineStop<HistoryStop>>
    ensures next { OnOk result (after (HistoryCheck.Going checker.old events.old) line.now ≡ Some (HistoryCheck.Going checker.new events.new)) }
    ensures err { IfErr result (IsEntryStop checker.old line.now) }
{
    match check_line(alloc, checker, events, line) {
        Ok(_) => Ok(()),
        Err(stop) => Err(stop),
    }
}

/// The same, and answers the entry of the line.
pub fn check_line(
    alloc: Global,
    checker: &mut Checker,
    events: &mut u64,
    line: &[u8],
) -> Result<Entry, LineStop<HistoryStop>>
    ensures next { OnOk result (after (HistoryCheck.Going checker.old events.old) line.now ≡ Some (HistoryCheck.Going checker.new events.new)) }
    ensures may { IfOk result (λ entry. MayCome checker.old entry) }
    ensures past { IfOk result (λ entry. checker.new ≡ past_after checker.old entry) }
    ensures err { IfErr result (IsEntryStop checker.old line.now) }
{
    let Ok(entry) = read_entry(line) else {
        return Err(LineStop::Stop(HistoryStop::Line));
    };
    match &entry {
        Entry::Event(event) => append(checker, events, event)?,
        Entry::Seal => seal(alloc, checker)?,
    }
    Ok(entry)
}

/// Goes on by an event, if it follows.
fn append(
    checker: &mut Checker,
    events: &mut u64,
    event: &Event,
) -> Result<(), LineStop<HistoryStop>>
    ensures next { OnOk result (came checker.old events.old (EntryCase.Event event.now) ≡ Some (HistoryCheck.Going checker.new events.new)) }
    ensures may { OnOk result (MayCome checker.old (EntryCase.Event event.now)) }
    ensures past { OnOk result (checker.new ≡ past_after checker.old (EntryCase.Event event.now)) }
    ensures err { IfErr result (IsStopAt checker.old (EntryCase.Event event.now)) }
{
    if let Err(objection) = checker.may_follow(event) {
        return Err(LineStop::Stop(HistoryStop::Objection(objection)));
    }
    let Some(more) = events.checked_add(1) else {
        return Err(LineStop::Memory);
    };
    match checker.append(event) {
        Ok(()) => {
            *events = more;
            Ok(())
        }
        Err(_) => Err(LineStop::Memory),
    }
}

/// Seals a part, if it may be sealed.
fn seal(alloc: Global, checker: &mut Checker) -> Result<(), LineStop<HistoryStop>>
    ensures next { (n : ℕ) → OnOk result (came checker.old n EntryCase.Seal ≡ Some (HistoryCheck.Going checker.new n)) }
    ensures may { OnOk result (MayCome checker.old EntryCase.Seal) }
    ensures past { OnOk result (checker.new ≡ past_after checker.old EntryCase.Seal) }
    ensures err { IfErr result (IsStopAt checker.old EntryCase.Seal) }
{
    if let Err(objection) = checker.may_seal() {
        return Err(LineStop::Stop(HistoryStop::Objection(objection)));
    }
    match checker.seal(alloc) {
        Ok(()) => Ok(()),
        Err(_) => Err(LineStop::Memory),
    }
}
