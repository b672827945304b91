//! The line of `release`.
ghost use Rattle.fj_lines.specs.Words.{words_behind, Reads};
ghost use Rattle.fj_lines.specs.Readings.Release.{release_in};

use crate::line::Line;
use crate::read::fault::LineFault;
use crate::read::task::{TaskWord, one_task};

/// Reads what follows `release`: the task.
#[tactic(auto, unfolding(crate::specs::Readings::Release::release_in))]
pub fn release<W: TaskWord>(behind: &[u8]) -> Result<Line<W, W::Label>, LineFault>
    ensures { Reads (release_in W.reader (words_behind behind.now)) result }
{
    let t = one_task(behind)?;
    Ok(Line::Release { t })
}
