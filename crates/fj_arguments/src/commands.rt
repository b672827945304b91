//! The declarations of the commands, each with its help.
ghost use Rattle.std.specs.Prelude.{◌≡◌, IfOk, false};
ghost use Rattle.clap.specs.Words.{App, app_of};
ghost use Rattle.clap.specs.declared.builder.command.Command.TheViews.{out-Command};
ghost use Rattle.fj_arguments.specs.Commands.{record_line, recorder_line, replay_line, script_line, whole_line, with_jobs, with_texts};
ghost use Rattle.fj_arguments.specs.Options.{IsLocal, Makes, view_line, with_window};

use crate::arguments::{defaulted, file, unbounded, word};
use crate::builders::{Texts, plain, titled, with_one, with_option, with_plain};
use crate::help;
use crate::jobs::{COMPUTED, RECORDED, with_jobs};
use clap::Command;
use std::alloc::{AllocError, Global};

/// Which view, and the events of a picture. Precondition: the command has no option that its subcommands share.
fn of_window<'a>(
    alloc: Global,
    command: Result<Command<'a>, AllocError>,
) -> Result<Command<'a>, AllocError>
    requires { IsLocal command }
    ensures app { (line : App) → Makes command.entry line → Makes result (with_window line) }
    ensures local { IsLocal result }
{
    let with_as = with_option(
        command,
        word(
            alloc,
            "as",
            "VIEW",
            "Which one: tasks, stats, path, chrome, dot or svg",
        ),
    );
    let with_from = with_option(
        with_as,
        defaulted(
            alloc,
            "from",
            u32::MAX,
            "The first event of a picture, 1 to 4294967295",
        ),
    );
    with_option(
        with_from,
        unbounded(alloc, "to", "The last event of a picture"),
    )
}

const VIEW: Texts = Texts {
    about: "Writes a view of the history on standard input",
    usage: "fj view [OPTIONS] --as <VIEW> < HISTORY",
    after: help::VIEW,
};

fn view<'a>(alloc: Global) -> Result<Command<'a>, AllocError>
    ensures app { IfOk result (λ c. app_of c ≡ view_line) }
    ensures local { IfOk result (λ c. (out-Command c).has_globals ≡ false) }
{
    let view = plain(alloc, "view", VIEW);
    with_option(
        of_window(alloc, Ok(view)),
        file(
            alloc,
            "notes",
            "Notes beside the history, as fj record writes them",
        ),
    )
}

const REPLAY: Texts = Texts {
    about: "Runs the script on standard input and writes its replies",
    usage: "fj replay < SCRIPT",
    after: help::REPLAY,
};

const UPGRADE: Texts = Texts {
    about: "Writes the script on standard input with names for its tasks",
    usage: "fj upgrade < SCRIPT",
    after: help::UPGRADE,
};

const CHECK: Texts = Texts {
    about: "Tells whether the history on standard input is one",
    usage: "fj check < HISTORY",
    after: help::CHECK,
};

const TRACE: Texts = Texts {
    about: "Runs the script on standard input and writes its history",
    usage: "fj trace < SCRIPT",
    after: help::TRACE,
};

const TEST: Texts = Texts {
    about: "Compares a script's replies with those behind its lines",
    usage: "fj test < SCRIPT",
    after: help::TEST,
};

const EXPLAIN: Texts = Texts {
    about: "Writes the script with its replies, and why nothing was done",
    usage: "fj explain < SCRIPT",
    after: help::EXPLAIN,
};

const RECORD: Texts = Texts {
    about: "Runs a job by workers in threads and writes its history",
    usage: "fj record [--notes <FILE>] <JOB> [OPTIONS]",
    after: help::RECORD,
};

/// The program with its first command.
fn program<'a>(alloc: Global) -> Result<Command<'a>, AllocError>
    ensures { IfOk result (λ c. app_of c ≡ replay_line) }
{
    let program = titled(
        alloc,
        "fj",
        "A fork-join pool with counted completers",
        help::WHOLE,
    )
    .version(help::VERSION)
    .subcommand_required(true);
    with_plain(alloc, Ok(program), "replay", REPLAY)
}

/// The program with the commands that run scripts and jobs.
fn with_runs<'a>(alloc: Global) -> Result<Command<'a>, AllocError>
    ensures { IfOk result (λ c. app_of c ≡ with_jobs script_line) }
{
    let with_upgrade = with_plain(alloc, program(alloc), "upgrade", UPGRADE);
    with_jobs(alloc, with_upgrade, COMPUTED)
}

/// What was made so far with the commands that have a text as input, and no options.
fn with_texts<'a>(
    alloc: Global,
    command: Result<Command<'a>, AllocError>,
) -> Result<Command<'a>, AllocError>
    ensures { (line : App) → Makes command.entry line → Makes result (with_texts line) }
{
    let with_check = with_plain(alloc, command, "check", CHECK);
    let with_trace = with_plain(alloc, with_check, "trace", TRACE);
    let with_test = with_plain(alloc, with_trace, "test", TEST);
    with_plain(alloc, with_test, "explain", EXPLAIN)
}

/// The whole command line, without the arguments of `record`.
pub fn command<'a>(alloc: Global) -> Result<Command<'a>, AllocError>
    ensures { IfOk result (λ command. app_of command ≡ whole_line) }
{
    let texts = with_texts(alloc, with_runs(alloc));
    let with_record = with_plain(alloc, texts, "record", RECORD);
    with_one(with_record, view(alloc))
}

/// The program from `record` on, without its jobs.
fn recorder<'a>(alloc: Global) -> Result<Command<'a>, AllocError>
    ensures app { Makes result recorder_line }
    ensures local { IsLocal result }
{
    plain(alloc, "fj record", RECORD)
        .subcommand_required(true)
        .bin_name("fj record")
}

/// The command line from `record` on.
pub fn record_command<'a>(alloc: Global) -> Result<Command<'a>, AllocError>
    ensures { IfOk result (λ command. app_of command ≡ record_line) }
{
    let record = with_option(
        recorder(alloc),
        file(alloc, "notes", "Writes real times of the tasks to a file"),
    );
    with_jobs(alloc, record, RECORDED)
}
