//! The declarations of the jobs, each with its help.
ghost use Rattle.std.specs.Prelude.{◌≡◌, IfOk, false};
ghost use Rattle.clap.specs.Words.{App, app_of};
ghost use Rattle.clap.specs.declared.builder.command.Command.TheViews.{out-Command};
ghost use Rattle.fj_arguments.specs.Commands.{with_jobs, with_ranges};
ghost use Rattle.fj_arguments.specs.Options.{IsLocal, Makes, find_line, min_line, sum_line, tree_line, with_function, with_numbers, with_range};

use crate::arguments::{defaulted, flag, required};
use crate::builders::{Texts, plain, titled, with_one, with_option};
use crate::help;
use clap::Command;
use fj_rules::MAX_WORKERS;
use std::alloc::{AllocError, Global};

/// How jobs are called, where the usage of `clap` does not say it well.
#[derive(Clone, Copy)]
pub struct Usages {
    /// On two lines, since one would have more than 80 columns.
    find: &'static str,
    tree: &'static str,
}

pub const COMPUTED: Usages = Usages {
    find: "fj find [OPTIONS] --from <N> --to <N>
               --mul <N> --add <N> --mod <N> --want <N>",
    tree: "fj tree [OPTIONS] < TREE",
};

pub const RECORDED: Usages = Usages {
    find: "fj record find [OPTIONS] --from <N> --to <N>
                      --mul <N> --add <N> --mod <N> --want <N>",
    tree: "fj record tree [OPTIONS] < TREE",
};

/// The options of a range. Precondition: the command has no option that its subcommands share.
fn over_numbers<'a>(
    alloc: Global,
    command: Result<Command<'a>, AllocError>,
) -> Result<Command<'a>, AllocError>
    requires { IsLocal command }
    ensures app { (line : App) → Makes command.entry line → Makes result (with_numbers line) }
    ensures local { IsLocal result }
{
    let with_from = with_option(
        command,
        required(alloc, "from", 0, "The first number, 0 to 4294967295"),
    );
    let with_to = with_option(
        with_from,
        required(
            alloc,
            "to",
            0,
            "The last number, 0 to 4294967295; below --from: no numbers",
        ),
    );
    with_option(
        with_to,
        defaulted(
            alloc,
            "grain",
            u32::MAX,
            "How many numbers a block has, 1 to 4294967295",
        ),
    )
}

/// The options of a job over a range. Precondition: the command has no option that its subcommands share.
fn over_range<'a>(
    alloc: Global,
    command: Result<Command<'a>, AllocError>,
) -> Result<Command<'a>, AllocError>
    requires { IsLocal command }
    ensures app { (line : App) → Makes command.entry line → Makes result (with_range line) }
    ensures local { IsLocal result }
{
    let with_workers = with_option(
        over_numbers(alloc, command),
        defaulted(
            alloc,
            "workers",
            MAX_WORKERS,
            "How many workers there are, 1 to 32",
        ),
    );
    with_option(
        with_workers,
        flag(
            alloc,
            "eager",
            "Forks at every split, not only while a worker is idle",
        ),
    )
}

/// The options of a function. Precondition: the command has no option that its subcommands share.
fn of_function<'a>(
    alloc: Global,
    command: Result<Command<'a>, AllocError>,
) -> Result<Command<'a>, AllocError>
    requires { IsLocal command }
    ensures app { (line : App) → Makes command.entry line → Makes result (with_function line) }
    ensures local { IsLocal result }
{
    let with_mul = with_option(
        command,
        required(
            alloc,
            "mul",
            0,
            "The factor of the function, 0 to 4294967295",
        ),
    );
    let with_add = with_option(
        with_mul,
        required(
            alloc,
            "add",
            0,
            "The summand of the function, 0 to 4294967295",
        ),
    );
    with_option(
        with_add,
        required(
            alloc,
            "mod",
            1,
            "The divisor of the function, 1 to 4294967295",
        ),
    )
}

fn sum<'a>(alloc: Global) -> Result<Command<'a>, AllocError>
    ensures app { IfOk result (λ c. app_of c ≡ sum_line) }
    ensures local { IfOk result (λ c. (out-Command c).has_globals ≡ false) }
{
    let sum = titled(
        alloc,
        "sum",
        "Writes the sum of the numbers of a range",
        help::SUM,
    );
    over_range(alloc, Ok(sum))
}

fn min<'a>(alloc: Global) -> Result<Command<'a>, AllocError>
    ensures app { IfOk result (λ c. app_of c ≡ min_line) }
    ensures local { IfOk result (λ c. (out-Command c).has_globals ≡ false) }
{
    let min = titled(
        alloc,
        "min",
        "Writes the least value of a function over a range, and where it is",
        help::MIN,
    );
    of_function(alloc, over_range(alloc, Ok(min)))
}

fn find<'a>(alloc: Global, usage: &'static str) -> Result<Command<'a>, AllocError>
    ensures app { IfOk result (λ c. app_of c ≡ find_line) }
    ensures local { IfOk result (λ c. (out-Command c).has_globals ≡ false) }
{
    let texts = Texts {
        about: "Writes the first number of a range at which a function has a value",
        usage,
        after: help::FIND,
    };
    let find = plain(alloc, "find", texts);
    with_option(
        of_function(alloc, over_range(alloc, Ok(find))),
        required(
            alloc,
            "want",
            0,
            "The value that is looked for, 0 to 4294967295",
        ),
    )
}

fn tree<'a>(alloc: Global, usage: &'static str) -> Result<Command<'a>, AllocError>
    ensures app { IfOk result (λ c. app_of c ≡ tree_line) }
    ensures local { IfOk result (λ c. (out-Command c).has_globals ≡ false) }
{
    let texts = Texts {
        about: "Writes the value of the tree on standard input",
        usage,
        after: help::TREE,
    };
    let tree = plain(alloc, "tree", texts);
    with_option(
        Ok(tree),
        defaulted(
            alloc,
            "workers",
            MAX_WORKERS,
            "How many workers there are, 1 to 32",
        ),
    )
}

/// What was made so far with the jobs over a range that need no more options of their own.
fn with_ranges<'a>(
    alloc: Global,
    command: Result<Command<'a>, AllocError>,
) -> Result<Command<'a>, AllocError>
    ensures { (line : App) → Makes command.entry line → Makes result (with_ranges line) }
{
    let with_sum = with_one(command, sum(alloc));
    with_one(with_sum, min(alloc))
}

/// What was made so far with a job as each of four subcommands.
pub fn with_jobs<'a>(
    alloc: Global,
    command: Result<Command<'a>, AllocError>,
    usages: Usages,
) -> Result<Command<'a>, AllocError>
    ensures { (line : App) → Makes command.entry line → Makes result (with_jobs line) }
{
    let ranges = with_ranges(alloc, command);
    let with_find = with_one(ranges, find(alloc, usages.find));
    with_one(with_find, tree(alloc, usages.tree))
}
