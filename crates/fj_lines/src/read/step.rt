ghost use Rattle.std.specs.Prelude.{◌≡◌, ◌≤◌, length, Some, Ok, IfOk, OnOk};
ghost use Rattle.fj_lines.specs.declared.read.TheConstants.{MAX_LINE};
ghost use Rattle.fj_lines.specs.Words.{Reads};
ghost use Rattle.fj_lines.specs.Lines.{HasLine, step_line, step_in, kind_of};
ghost use Rattle.fj_rules.specs.declared.step.Step.{Step};

use crate::line::{ForkedKind, Line};
use crate::read::fault::LineFault;
use crate::read::line::read_line;
use fj_rules::{Kind, Serial, Step};

/// Reads the line of a step, without its line feed. `LineFault` where it is not one.
/// Whether the numbers are within the pool's limits is not checked.
pub fn read_step(line: &[u8]) -> Result<Step, LineFault>
    ensures value { Reads (step_in line.now) result }
    // The line is that of the result.
    ensures written { IfOk result (λ step. HasLine step × (line.now ≡ step_line step)) }
    // Each step's line is read as that step.
    ensures read { (step : Step) → HasLine step → line.now ≡ step_line step → result ≡ Ok step }
    ensures short { OnOk result (length line.now ≤ MAX_LINE) }
    ensures longest { MAX_LINE ≡ 64 }
    // The definition reads each step's line as that step.
    ensures again { (step : Step) → HasLine step → step_in (step_line step) ≡ Some step }
{
    step_said(line)
}

/// The step that a line asks for. `LineFault` also at the lines of epochs, which version 1 does not have.
#[tactic(auto, unfolding(crate::specs::Lines::step_in))]
fn step_said(line: &[u8]) -> Result<Step, LineFault>
    ensures { Reads (step_in line.now) result }
{
    let asked = match read_line::<Serial>(line) {
        Ok(asked) => asked,
        Err(fault) => return Err(fault),
    };
    Ok(match asked {
        Line::Submit { s, kind, .. } => Step::Submit { s, kind },
        Line::Fork { w, kind, .. } => Step::Fork {
            w,
            kind: kind_of(kind),
        },
        Line::Trigger { w, count, .. } => Step::Trigger { w, count },
        Line::Poll { w, r } => Step::Poll { w, r },
        Line::Help { w, r } => Step::Help { w, r },
        Line::Join { w, t, r } => Step::Join { w, t, r },
        Line::End { w, ending } => Step::End { w, ending },
        Line::HookDone { w } => Step::HookDone { w },
        Line::Add { w, c, n } => Step::Add { w, c, n },
        Line::QuietRoot { w, t } => Step::QuietRoot { w, t },
        Line::Fault { t, code } => Step::Fault { t, code },
        Line::Cancel { t } => Step::Cancel { t },
        Line::Shutdown => Step::Shutdown,
        Line::Stop => Step::Stop,
        Line::IsQuiescent => Step::IsQuiescent,
        Line::State { t } => Step::State { t },
        Line::Release { t } => Step::Release { t },
        Line::Seal | Line::Epoch => return Err(LineFault),
    })
}

/// The kind of a forked task, with the number of its parent.
fn kind_of(kind: ForkedKind<Serial>) -> Kind
    ensures { result ≡ kind_of kind }
{
    match kind {
        ForkedKind::Plain => Kind::Plain,
        ForkedKind::Completer {
            relay,
            count,
            parent,
        } => Kind::Completer {
            relay,
            count,
            parent,
        },
    }
}
