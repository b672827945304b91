//! Owners, kinds, statuses, and why a completion action was handed out.
ghost use Rattle.fj_lines.specs.Words.{words_behind, number_in, Reads};
ghost use Rattle.fj_lines.specs.Readings.Accept.{parent_said};
ghost use Rattle.fj_history.specs.EntryReadings.{owner_said, kind_said, completer_kind, how_said, status_said, status_word_said};

use fj_lines::{LineFault, count_and_relay, next_word, no_more, one_number, read_number};
use fj_rules::{How, Kind, Owner, Serial, Status, SubId, WorkerId};

/// An owner, by a word and a number.
pub fn owner(word: &[u8], n: u32) -> Result<Owner, LineFault>
    ensures { Reads (owner_said word.now n) result }
{
    if word == b"sub".as_slice() {
        Ok(Owner::Sub(SubId(n)))
    } else if word == b"work".as_slice() {
        Ok(Owner::Work(WorkerId(n)))
    } else {
        Err(LineFault)
    }
}

/// Reads a kind, up to the end of the line.
#[tactic(auto, unfolding(crate::specs::EntryReadings::kind_said))]
pub fn kind(behind: &[u8]) -> Result<Kind, LineFault>
    ensures { Reads (kind_said (words_behind behind.now)) result }
{
    let (word, behind) = next_word(behind)?;
    if word == b"plain".as_slice() {
        no_more(behind)?;
        Ok(Kind::Plain)
    } else if word == b"completer".as_slice() {
        completer(behind)
    } else {
        Err(LineFault)
    }
}

/// Reads what follows `completer`: its parent or `-`, its count and relay word.
#[tactic(auto, unfolding(crate::specs::EntryReadings::completer_kind))]
fn completer(behind: &[u8]) -> Result<Kind, LineFault>
    ensures { Reads (completer_kind (words_behind behind.now)) result }
{
    let (word, behind) = next_word(behind)?;
    let parent = parent(word)?;
    let (count, relay) = count_and_relay(behind)?;
    Ok(Kind::Completer {
        relay,
        count,
        parent,
    })
}

/// A task, or `-` for none.
fn parent(word: &[u8]) -> Result<Option<Serial>, LineFault>
    ensures { Reads (parent_said number_in word.now) result }
{
    if word == b"-".as_slice() {
        Ok(None)
    } else {
        let t = read_number(word)?;
        Ok(Some(Serial(u64::from(t))))
    }
}

/// Why a completion action was handed out.
pub fn how(word: &[u8]) -> Result<How, LineFault>
    ensures { Reads (how_said word.now) result }
{
    if word == b"zero".as_slice() {
        Ok(How::Zero)
    } else if word == b"complete".as_slice() {
        Ok(How::Complete)
    } else {
        Err(LineFault)
    }
}

/// Reads a status, up to the end of the line: one word, or `exceptional` and a code.
#[tactic(auto, unfolding(crate::specs::EntryReadings::status_said))]
pub fn status(behind: &[u8]) -> Result<Status, LineFault>
    ensures { Reads (status_said (words_behind behind.now)) result }
{
    let (word, behind) = next_word(behind)?;
    if word == b"exceptional".as_slice() {
        let code = one_number(behind)?;
        return Ok(Status::Exceptional(code));
    }
    let status = status_word(word)?;
    no_more(behind)?;
    Ok(status)
}

fn status_word(word: &[u8]) -> Result<Status, LineFault>
    ensures { Reads (status_word_said word.now) result }
{
    if word == b"normal".as_slice() {
        Ok(Status::Normal)
    } else if word == b"cancelled".as_slice() {
        Ok(Status::Cancelled)
    } else if word == b"undone".as_slice() {
        Ok(Status::Undone)
    } else {
        Err(LineFault)
    }
}
