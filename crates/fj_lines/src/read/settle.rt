//! The lines of `settle`.
ghost use Rattle.fj_lines.specs.Words.{words_behind, Reads};
ghost use Rattle.fj_lines.specs.Readings.Settle.{fault_in, cancel_in};

use crate::line::Line;
use crate::read::fault::LineFault;
use crate::read::numbers::one_number;
use crate::read::task::{TaskWord, next_task, one_task};

/// Reads what follows `fault`: the task and the code.
#[tactic(auto, unfolding(crate::specs::Readings::Settle::fault_in))]
pub fn fault<W: TaskWord>(behind: &[u8]) -> Result<Line<W, W::Label>, LineFault>
    ensures { Reads (fault_in W.reader (words_behind behind.now)) result }
{
    let (t, behind) = next_task(behind)?;
    let code = one_number(behind)?;
    Ok(Line::Fault { t, code })
}

/// Reads what follows `cancel`: the task.
#[tactic(auto, unfolding(crate::specs::Readings::Settle::cancel_in))]
pub fn cancel<W: TaskWord>(behind: &[u8]) -> Result<Line<W, W::Label>, LineFault>
    ensures { Reads (cancel_in W.reader (words_behind behind.now)) result }
{
    let t = one_task(behind)?;
    Ok(Line::Cancel { t })
}
