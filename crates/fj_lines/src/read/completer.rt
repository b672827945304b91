//! The lines of `completer`.
ghost use Rattle.fj_lines.specs.Words.{words_behind, Reads};
ghost use Rattle.fj_lines.specs.Readings.Completer.{add_in, root_in};

use crate::line::Line;
use crate::read::fault::LineFault;
use crate::read::task::{TaskWord, one_task, worker_task_number};
use crate::read::words::next_number;
use fj_rules::WorkerId;

/// Reads what follows `add`: the worker, the completer and the number to add.
#[tactic(auto, unfolding(crate::specs::Readings::Completer::add_in))]
pub fn add<W: TaskWord>(behind: &[u8]) -> Result<Line<W, W::Label>, LineFault>
    ensures { Reads (add_in W.reader (words_behind behind.now)) result }
{
    let (w, c, n) = worker_task_number(behind)?;
    Ok(Line::Add {
        w: WorkerId(w),
        c,
        n,
    })
}

/// Reads what follows `root`: the worker and the task.
#[tactic(auto, unfolding(crate::specs::Readings::Completer::root_in))]
pub fn root<W: TaskWord>(behind: &[u8]) -> Result<Line<W, W::Label>, LineFault>
    ensures { Reads (root_in W.reader (words_behind behind.now)) result }
{
    let (w, behind) = next_number(behind)?;
    let t = one_task(behind)?;
    Ok(Line::QuietRoot { w: WorkerId(w), t })
}
