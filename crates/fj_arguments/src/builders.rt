//! A command is made option by option and subcommand by subcommand, or not at all.
ghost use Rattle.std.specs.Prelude.{◌≡◌, false};
ghost use Rattle.clap.specs.Walk.{rule_of};
ghost use Rattle.clap.specs.Words.{App, app_of, new_app, with_rule, with_subcommand};
ghost use Rattle.clap.specs.declared.builder.command.Command.TheViews.{out-Command};
ghost use Rattle.fj_arguments.specs.Commands.{with_plain};
ghost use Rattle.fj_arguments.specs.Options.{IsLocal, Makes};

use clap::{Arg, Command};
use std::alloc::{AllocError, Global};

/// The texts of a command.
#[derive(Clone, Copy)]
pub struct Texts {
    pub about: &'static str,
    pub usage: &'static str,
    pub after: &'static str,
}

/// A command without options, with the usage that `clap` makes.
pub fn titled<'a>(
    alloc: Global,
    name: &'static str,
    about: &'static str,
    after: &'static str,
) -> Command<'a>
    ensures app { app_of result ≡ new_app name.entry.now }
    ensures local { (out-Command result).has_globals ≡ false }
{
    Command::new(alloc, name).about(about).after_help(after)
}

/// A command without options.
pub fn plain<'a>(alloc: Global, name: &'static str, texts: Texts) -> Command<'a>
    ensures app { app_of result ≡ new_app name.entry.now }
    ensures local { (out-Command result).has_globals ≡ false }
{
    titled(alloc, name, texts.about, texts.after).override_usage(texts.usage)
}

/// What was made so far with one more option. Precondition: neither has an option that subcommands share, nor is it one.
pub fn with_option<'a>(
    command: Result<Command<'a>, AllocError>,
    option: Arg<'a>,
) -> Result<Command<'a>, AllocError>
    requires command { IsLocal command }
    requires option { option.global ≡ false }
    ensures app { (line : App) → Makes command.entry line → Makes result (with_rule line (rule_of option.entry)) }
    ensures local { IsLocal result }
{
    match command {
        Ok(command) => command.arg(option),
        Err(none) => {
            drop(option);
            Err(none)
        }
    }
}

/// A command with one more subcommand, `sub`. Precondition: `sub` has no option that its own subcommands share.
fn with_made<'a>(
    command: Command<'a>,
    sub: Result<Command<'a>, AllocError>,
) -> Result<Command<'a>, AllocError>
    requires { IsLocal sub }
    ensures { (inner : App) → Makes sub.entry inner → Makes result (with_subcommand (app_of command.entry) inner.top) }
{
    match sub {
        Ok(sub) => command.subcommand(sub),
        Err(none) => {
            drop(command);
            Err(none)
        }
    }
}

/// What was made so far with one more subcommand, `sub`. Precondition: `sub` has no option that its own subcommands share.
pub fn with_one<'a>(
    command: Result<Command<'a>, AllocError>,
    sub: Result<Command<'a>, AllocError>,
) -> Result<Command<'a>, AllocError>
    requires { IsLocal sub }
    ensures { (line inner : App) → Makes command.entry line → Makes sub.entry inner → Makes result (with_subcommand line inner.top) }
{
    match command {
        Ok(command) => with_made(command, sub),
        Err(none) => {
            drop(sub);
            Err(none)
        }
    }
}

/// What was made so far with one more subcommand, which has no options.
pub fn with_plain<'a>(
    alloc: Global,
    command: Result<Command<'a>, AllocError>,
    name: &'static str,
    texts: Texts,
) -> Result<Command<'a>, AllocError>
    ensures { (line : App) → Makes command.entry line → Makes result (with_plain line name.entry.now) }
{
    with_one(command, Ok(plain(alloc, name, texts)))
}
