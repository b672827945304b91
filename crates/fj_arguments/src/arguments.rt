//! The declarations of the options: each has a number, in a range, or is a flag.
ghost use Rattle.std.specs.Prelude.{◌≡◌, true, false};
ghost use Rattle.clap.specs.Walk.{rule_of};
ghost use Rattle.fj_arguments.specs.Options.{defaulted_rule, file_rule, flag_rule, required_rule, unbounded_rule, word_rule};

use clap::builder::ValueParser;
use clap::{Arg, ArgAction};
use std::alloc::Global;

/// An option with a text.
fn valued<'a>(alloc: Global, name: &'a str, value: &'a str, help: &'a str) -> Arg<'a>
    ensures rule { rule_of result ≡ file_rule name.entry.now }
    ensures local { result.global ≡ false }
{
    Arg::new(alloc, name)
        .long(name)
        .value_name(value)
        .action(ArgAction::Set)
        .help(help)
}

/// An option with a number in this range.
fn option<'a>(alloc: Global, name: &'a str, least: u32, most: u32, help: &'a str) -> Arg<'a>
    ensures rule { rule_of result ≡ required_rule name.entry.now least most false }
    ensures local { result.global ≡ false }
{
    valued(alloc, name, "N", help).value_parser(ValueParser::unsigned(
        u64::from(least),
        u64::from(most),
    ))
}

/// A required option: a number from `least` to 4,294,967,295.
pub fn required<'a>(alloc: Global, name: &'a str, least: u32, help: &'a str) -> Arg<'a>
    ensures rule { rule_of result ≡ required_rule name.entry.now least 4294967295 true }
    ensures local { result.global ≡ false }
{
    option(alloc, name, least, u32::MAX, help).required(true)
}

/// An option that is 1 by default: a number from 1 to `most`.
pub fn defaulted<'a>(alloc: Global, name: &'a str, most: u32, help: &'a str) -> Arg<'a>
    ensures rule { rule_of result ≡ defaulted_rule name.entry.now most }
    ensures local { result.global ≡ false }
{
    option(alloc, name, 1, most, help).default_value("1")
}

/// An option that is 4,294,967,295 by default: a number from 1 on.
pub fn unbounded<'a>(alloc: Global, name: &'a str, help: &'a str) -> Arg<'a>
    ensures rule { rule_of result ≡ unbounded_rule name.entry.now }
    ensures local { result.global ≡ false }
{
    option(alloc, name, 1, u32::MAX, help).default_value("4294967295")
}

/// A required option: a word.
pub fn word<'a>(alloc: Global, name: &'a str, value: &'a str, help: &'a str) -> Arg<'a>
    ensures rule { rule_of result ≡ word_rule name.entry.now }
    ensures local { result.global ≡ false }
{
    valued(alloc, name, value, help).required(true)
}

/// An option with a file's name, which may be left out.
pub fn file<'a>(alloc: Global, name: &'a str, help: &'a str) -> Arg<'a>
    ensures rule { rule_of result ≡ file_rule name.entry.now }
    ensures local { result.global ≡ false }
{
    valued(alloc, name, "FILE", help)
}

/// An option without a value.
pub fn flag<'a>(alloc: Global, name: &'a str, help: &'a str) -> Arg<'a>
    ensures rule { rule_of result ≡ flag_rule name.entry.now }
    ensures local { result.global ≡ false }
{
    Arg::new(alloc, name)
        .long(name)
        .action(ArgAction::SetTrue)
        .help(help)
}
