//! The command line: parses the arguments.
ghost use Rattle.std.specs.Prelude.{◌≡◌, ◌≢◌, ◌↔◌, Some, None, IfOk, IfErr, IfSome, IfNone, codes, option_map};
ghost use Rattle.clap.specs.Walk.{texts};
ghost use Rattle.clap.specs.Words.{HasKind, fault_of, found_of, rows_of, subcommand_name_of, subcommand_of, subcommand_rows_of};
ghost use Rattle.fj_arguments.specs.Commands.{Asks, AsksNothing, Names, ReadsScript, faults_in, name_in, record_line, recorded_as, recorded_in, whole_line};
ghost use Rattle.fj_arguments.specs.declared.command_line.Job.{Job};
ghost use Rattle.fj_arguments.specs.declared.command_line.Subcommand.{Subcommand};
ghost use Rattle.fj_arguments.specs.Given.{AsksForNoText, IsAsked, IsAskedJob, IsJob, IsMetJob, IsPlain};

use crate::commands::{command, record_command};
use crate::given::{read_function, read_range, read_view, read_want, read_workers};
use crate::options::{FunctionOptions, RangeOptions, ViewOptions, Workers};
use clap::{ArgMatches, Error};
use std::alloc::Global;

/// A job, with its options.
#[derive(Clone, Copy)]
pub enum Job {
    /// The sum of a range.
    Sum(RangeOptions),
    /// The least value of a function over a range.
    Min(RangeOptions, FunctionOptions),
    /// The first number of a range at which a function has this value.
    Find(RangeOptions, FunctionOptions, u32),
    /// The value of a tree on standard input.
    Tree(Workers),
}

/// The command to run.
#[derive(Clone, Copy)]
pub enum Subcommand<'a> {
    /// The replies to a script on standard input.
    Replay,
    /// A script of version 1 on standard input, as version 2.
    Upgrade,
    /// The value of a job.
    Compute(Job),
    /// The history of a run of a job, and real times in a file of this name.
    Record(Job, Option<&'a str>),
    /// Whether the history on standard input is one.
    Check,
    /// The history of the run of a script on standard input.
    Trace,
    /// Whether the script on standard input gives the replies behind its lines.
    Test,
    /// The script on standard input, with its replies and their reasons.
    Explain,
    /// A view of the history on standard input.
    View(ViewOptions<'a>),
}

/// Parses the arguments, the first being the program's name. `None` if they ask for no command. An error for a usage error, for help or
/// the version, or out of memory.
pub fn read<'a>(alloc: Global, words: &'a [&'a str]) -> Result<Option<Subcommand<'a>>, Error>
    ensures asked { IfOk result (λ asked. IfSome asked (λ a. Asks (texts words.entry.now) a)) }
    ensures none { IfOk result (λ asked. asked ≡ None → AsksNothing (texts words.entry.now)) }
    ensures replay { IfOk result (λ asked. (asked ≡ Some Subcommand.Replay) ↔ Names (codes "replay") (texts words.entry.now)) }
    ensures upgrade { IfOk result (λ asked. (asked ≡ Some Subcommand.Upgrade) ↔ Names (codes "upgrade") (texts words.entry.now)) }
    ensures fault { IfErr result (λ error. HasKind (faults_in (texts words.entry.now)) error) }
    ensures known { ReadsScript (texts words.entry.now) result }
{
    match recorded(words) {
        Some(job) => read_recorded(alloc, job),
        None => read_plain(alloc, words),
    }
}

/// The arguments behind the program's name, if the first of them is `record`.
fn recorded<'a>(words: &'a [&'a str]) -> Option<&'a [&'a str]>
    ensures some { IfSome result (λ job. recorded_in (texts words.entry.now) ≡ Some (texts job.now)) }
    ensures none { IfNone result (recorded_in (texts words.entry.now) ≡ None) }
{
    if words.len() < 2 || words[1] != "record" {
        return None;
    }
    Some(&words[1..])
}

/// Parses `record` and the arguments behind it.
fn read_recorded<'a>(alloc: Global, words: &'a [&'a str]) -> Result<Option<Subcommand<'a>>, Error>
    ensures asked { IfOk result (λ asked. IfSome asked (λ a. IsAsked (option_map recorded_as (subcommand_of record_line (texts words.entry.now))) a)) }
    ensures none { IfOk result (λ asked. asked ≡ None → (job : Job) → IsJob job → IsAskedJob (subcommand_of record_line (texts words.entry.now)) job → ⊥) }
    ensures job { IfOk result (λ asked. (asked ≢ Some Subcommand.Replay) × (asked ≢ Some Subcommand.Upgrade)) }
    ensures fault { IfErr result (λ error. HasKind (fault_of record_line (texts words.entry.now)) error) }
{
    match record_command(alloc)?.try_get_matches_from(words) {
        Ok(matches) => match asked_job(&matches) {
            Some(job) => Ok(Some(Subcommand::Record(job, matches.get_str("notes")))),
            None => Ok(None),
        },
        Err(error) => Err(error),
    }
}

/// Parses the arguments of any other command.
fn read_plain<'a>(alloc: Global, words: &'a [&'a str]) -> Result<Option<Subcommand<'a>>, Error>
    ensures asked { IfOk result (λ asked. IfSome asked (λ a. IsAsked (subcommand_of whole_line (texts words.entry.now)) a)) }
    ensures none { IfOk result (λ asked. asked ≡ None → (a : Subcommand) → IsPlain a → IsAsked (subcommand_of whole_line (texts words.entry.now)) a → ⊥) }
    ensures replay { IfOk result (λ asked. (asked ≡ Some Subcommand.Replay) ↔ (name_in (subcommand_of whole_line (texts words.entry.now)) ≡ Some (codes "replay"))) }
    ensures upgrade { IfOk result (λ asked. (asked ≡ Some Subcommand.Upgrade) ↔ (name_in (subcommand_of whole_line (texts words.entry.now)) ≡ Some (codes "upgrade"))) }
    ensures fault { IfErr result (λ error. HasKind (fault_of whole_line (texts words.entry.now)) error) }
    ensures known { ReadsScript (texts words.entry.now) result }
{
    match command(alloc)?.try_get_matches_from(words) {
        Ok(matches) => Ok(asked(&matches)),
        Err(error) => Err(error),
    }
}

/// The command that the arguments ask for.
fn asked<'a>(matches: &ArgMatches<'a>) -> Option<Subcommand<'a>>
    ensures asked { IfSome result (λ a. IsAsked (subcommand_rows_of matches.now) a) }
    ensures none { IfNone result ((a : Subcommand) → IsPlain a → IsAsked (subcommand_rows_of matches.now) a → ⊥) }
    ensures replay { (result ≡ Some Subcommand.Replay) ↔ (subcommand_name_of matches.now ≡ Some (codes "replay")) }
    ensures upgrade { (result ≡ Some Subcommand.Upgrade) ↔ (subcommand_name_of matches.now ≡ Some (codes "upgrade")) }
{
    if matches.subcommand_matches("replay").is_some() {
        return Some(Subcommand::Replay);
    }
    if matches.subcommand_matches("upgrade").is_some() {
        return Some(Subcommand::Upgrade);
    }
    asked_other(matches)
}

/// The command that the arguments ask for, if it is neither a replay nor an upgrade.
fn asked_other<'a>(matches: &ArgMatches<'a>) -> Option<Subcommand<'a>>
    ensures asked { IfSome result (λ a. IsAsked (subcommand_rows_of matches.now) a) }
    ensures other { IfSome result (λ a. (a ≢ Subcommand.Replay) × (a ≢ Subcommand.Upgrade)) }
    ensures none { IfNone result ((a : Subcommand) → (a ≢ Subcommand.Replay) → (a ≢ Subcommand.Upgrade) → IsPlain a → IsAsked (subcommand_rows_of matches.now) a → ⊥) }
{
    if let Some(asked) = asked_text(matches) {
        return Some(asked);
    }
    if let Some(given) = matches.subcommand_matches("view") {
        return Some(Subcommand::View(read_view(given)?));
    }
    Some(Subcommand::Compute(asked_job(matches)?))
}

/// The command that the arguments ask for, if it has a text as input, and no options.
fn asked_text<'a>(matches: &ArgMatches<'a>) -> Option<Subcommand<'a>>
    ensures asked { IfSome result (λ a. IsAsked (subcommand_rows_of matches.now) a) }
    ensures other { IfSome result (λ a. (a ≢ Subcommand.Replay) × (a ≢ Subcommand.Upgrade)) }
    ensures none { IfNone result (AsksForNoText (subcommand_rows_of matches.now)) }
{
    if matches.subcommand_matches("check").is_some() {
        return Some(Subcommand::Check);
    }
    if matches.subcommand_matches("trace").is_some() {
        return Some(Subcommand::Trace);
    }
    if matches.subcommand_matches("test").is_some() {
        return Some(Subcommand::Test);
    }
    if matches.subcommand_matches("explain").is_some() {
        return Some(Subcommand::Explain);
    }
    None
}

/// The job that the arguments ask for.
fn asked_job(matches: &ArgMatches) -> Option<Job>
    ensures asked { IfSome result (λ job. IsAskedJob (subcommand_rows_of matches.now) job) }
    ensures none { IfNone result ((job : Job) → IsJob job → IsAskedJob (subcommand_rows_of matches.now) job → ⊥) }
{
    if let Some(given) = matches.subcommand_matches("sum") {
        return asked_sum(given);
    }
    if let Some(given) = matches.subcommand_matches("min") {
        return asked_min(given);
    }
    if let Some(given) = matches.subcommand_matches("find") {
        return asked_find(given);
    }
    if let Some(given) = matches.subcommand_matches("tree") {
        return asked_tree(given);
    }
    None
}

/// The sum that these options ask for.
fn asked_sum(given: &ArgMatches) -> Option<Job>
    ensures asked { IfSome result (λ job. IsMetJob (codes "sum") (rows_of (found_of given.now)) job) }
    ensures none { IfNone result ((job : Job) → IsJob job → IsMetJob (codes "sum") (rows_of (found_of given.now)) job → ⊥) }
{
    Some(Job::Sum(read_range(given)?))
}

/// The least value that these options ask for.
fn asked_min(given: &ArgMatches) -> Option<Job>
    ensures asked { IfSome result (λ job. IsMetJob (codes "min") (rows_of (found_of given.now)) job) }
    ensures none { IfNone result ((job : Job) → IsJob job → IsMetJob (codes "min") (rows_of (found_of given.now)) job → ⊥) }
{
    Some(Job::Min(read_range(given)?, read_function(given)?))
}

/// The search that these options ask for.
fn asked_find(given: &ArgMatches) -> Option<Job>
    ensures asked { IfSome result (λ job. IsMetJob (codes "find") (rows_of (found_of given.now)) job) }
    ensures none { IfNone result ((job : Job) → IsJob job → IsMetJob (codes "find") (rows_of (found_of given.now)) job → ⊥) }
{
    Some(Job::Find(read_range(given)?, read_function(given)?, read_want(given)?))
}

/// The tree that these options ask for.
fn asked_tree(given: &ArgMatches) -> Option<Job>
    ensures asked { IfSome result (λ job. IsMetJob (codes "tree") (rows_of (found_of given.now)) job) }
    ensures none { IfNone result ((job : Job) → IsJob job → IsMetJob (codes "tree") (rows_of (found_of given.now)) job → ⊥) }
{
    Some(Job::Tree(read_workers(given)?))
}
