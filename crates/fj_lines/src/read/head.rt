ghost use Rattle.std.specs.Prelude.{◌≡◌, ◌≤◌, ℕ, List, length, Some, Ok, IfOk, OnOk};
ghost use Rattle.fj_lines.specs.Lines.{HasHeadLine, head_line, head_in};
ghost use Rattle.fj_lines.specs.Readings.{head_said, mode_in};
ghost use Rattle.fj_lines.specs.declared.read.TheConstants.{MAX_LINE};
ghost use Rattle.fj_lines.specs.Words.{words_behind, Reads};
ghost use Rattle.fj_rules.specs.declared.mode.Mode.{Mode};

use crate::read::fault::LineFault;
use crate::read::words::{first_word, next_number, no_more};
use fj_rules::Mode;

/// Reads a heading, without its line feed: the mode, and the numbers of workers, submitters, tasks and events.
/// `LineFault` where it is not a heading. Whether the numbers are in range is not checked.
pub fn read_head(line: &[u8]) -> Result<(Mode, [u32; 4]), LineFault>
    ensures value { Reads (head_in line.now) result }
    // The line is that of the result.
    ensures written { IfOk result (λ head. HasHeadLine head × (line.now ≡ head_line head)) }
    // Each heading's line is read as that heading.
    ensures read { (head : Mode × List ℕ) → HasHeadLine head → line.now ≡ head_line head → result ≡ Ok head }
    ensures short { OnOk result (length line.now ≤ MAX_LINE) }
    // The definition reads each heading's line as that heading.
    ensures again { (head : Mode × List ℕ) → HasHeadLine head → head_in (head_line head) ≡ Some head }
{
    let (verb, behind) = first_word(line);
    head_said(verb, behind)
}

/// The heading of a first word and what follows it.
#[tactic(auto, unfolding(crate::specs::Readings::head_said))]
fn head_said(verb: &[u8], behind: &[u8]) -> Result<(Mode, [u32; 4]), LineFault>
    ensures { Reads (head_said verb.now (words_behind behind.now)) result }
{
    let mode = read_mode(verb)?;
    let (workers, behind) = next_number(behind)?;
    let (submitters, behind) = next_number(behind)?;
    let (tasks, behind) = next_number(behind)?;
    let (events, behind) = next_number(behind)?;
    no_more(behind)?;
    Ok((mode, [workers, submitters, tasks, events]))
}

fn read_mode(word: &[u8]) -> Result<Mode, LineFault>
    ensures { Reads (mode_in word.now) result }
{
    if word == b"async".as_slice() {
        Ok(Mode::Async)
    } else if word == b"joining".as_slice() {
        Ok(Mode::Joining)
    } else {
        Err(LineFault)
    }
}
