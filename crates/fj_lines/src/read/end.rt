//! The lines of `end`.
ghost use Rattle.fj_lines.specs.Words.{words_behind, Reads};
ghost use Rattle.fj_lines.specs.Readings.End.{end_in, hook_in, ending_said, ending_word_said};

use crate::line::Line;
use crate::read::fault::LineFault;
use crate::read::numbers::one_number;
use crate::read::words::{next_number, next_word, no_more};
use fj_rules::{Ending, WorkerId};

/// Reads what follows `end`: the worker and the ending, which is one word or `fail` and a code.
#[tactic(auto, unfolding(crate::specs::Readings::End::end_in))]
pub fn end<T: Drop, N: Drop>(behind: &[u8]) -> Result<Line<T, N>, LineFault>
    ensures { Reads (end_in (words_behind behind.now)) result }
{
    let (w, behind) = next_number(behind)?;
    let ending = ending(behind)?;
    Ok(Line::End {
        w: WorkerId(w),
        ending,
    })
}

/// Reads an ending, up to the end of the line.
#[tactic(auto, unfolding(crate::specs::Readings::End::ending_said))]
fn ending(behind: &[u8]) -> Result<Ending, LineFault>
    ensures { Reads (ending_said (words_behind behind.now)) result }
{
    let (word, behind) = next_word(behind)?;
    if word == b"fail".as_slice() {
        let code = one_number(behind)?;
        return Ok(Ending::Fail(code));
    }
    let ending = ending_word(word)?;
    no_more(behind)?;
    Ok(ending)
}

fn ending_word(word: &[u8]) -> Result<Ending, LineFault>
    ensures { Reads (ending_word_said word.now) result }
{
    if word == b"ok".as_slice() {
        Ok(Ending::Ok)
    } else if word == b"quiet".as_slice() {
        Ok(Ending::Quiet)
    } else if word == b"try".as_slice() {
        Ok(Ending::Try)
    } else if word == b"pass".as_slice() {
        Ok(Ending::Pass)
    } else if word == b"complete".as_slice() {
        Ok(Ending::Complete)
    } else {
        Err(LineFault)
    }
}

/// Reads what follows `hook`: the worker.
#[tactic(auto, unfolding(crate::specs::Readings::End::hook_in))]
pub fn hook<T: Drop, N: Drop>(behind: &[u8]) -> Result<Line<T, N>, LineFault>
    ensures { Reads (hook_in (words_behind behind.now)) result }
{
    let w = one_number(behind)?;
    Ok(Line::HookDone { w: WorkerId(w) })
}
