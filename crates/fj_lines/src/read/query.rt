//! The line of `query` that names a task.
ghost use Rattle.fj_lines.specs.Words.{words_behind, Reads};
ghost use Rattle.fj_lines.specs.Readings.Query.{state_in};

use crate::line::Line;
use crate::read::fault::LineFault;
use crate::read::task::{TaskWord, one_task};

/// Reads what follows `state`: the task.
#[tactic(auto, unfolding(crate::specs::Readings::Query::state_in))]
pub fn state<W: TaskWord>(behind: &[u8]) -> Result<Line<W, W::Label>, LineFault>
    ensures { Reads (state_in W.reader (words_behind behind.now)) result }
{
    let t = one_task(behind)?;
    Ok(Line::State { t })
}
