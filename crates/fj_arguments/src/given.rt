//! The values of the options.
ghost use Rattle.std.specs.Prelude.{ℕ, ◌≤◌, IfNone, IfSome, Option, codes};
ghost use Rattle.clap.specs.Words.{found_of, rows_of};
ghost use Rattle.fj_rules.specs.declared.limits.TheConstants.{MAX_WORKERS};
ghost use Rattle.fj_arguments.specs.declared.options.FunctionOptions.{FunctionOptions};
ghost use Rattle.fj_arguments.specs.declared.options.RangeOptions.{RangeOptions};
ghost use Rattle.fj_arguments.specs.declared.options.ViewName.{ViewName};
ghost use Rattle.fj_arguments.specs.declared.options.ViewOptions.{ViewOptions};
ghost use Rattle.fj_arguments.specs.Given.{Gives, GivesFlag, GivesFunction, GivesRange, GivesView, GivesViewName, IsFunction, IsInRange, IsRange, IsWindow, NamesView};

use crate::options::{FunctionOptions, RangeOptions, ViewName, ViewOptions, Workers};
use clap::ArgMatches;
use fj_rules::MAX_WORKERS;

/// The number of an option, if it is in this range.
fn number(matches: &ArgMatches, name: &str, least: u32, most: u32) -> Option<u32>
    ensures range { IfSome result (λ n. (least ≤ n) × (n ≤ most)) }
    ensures given { IfSome result (λ n. Gives (rows_of (found_of matches.now)) name.now n) }
    ensures none { IfNone result ((n : ℕ) → IsInRange n least most → Gives (rows_of (found_of matches.now)) name.now n → ⊥) }
{
    match matches.get_one::<u32>(name) {
        Some(number) if least <= number && number <= most => Some(number),
        _ => None,
    }
}

/// Whether a flag was given.
fn flag(matches: &ArgMatches, name: &str) -> bool
    ensures { GivesFlag (rows_of (found_of matches.now)) name.now result }
{
    matches.get_one(name).unwrap_or(false)
}

/// The number of workers.
pub fn read_workers(matches: &ArgMatches) -> Option<Workers>
    ensures given { IfSome result (λ w. Gives (rows_of (found_of matches.now)) (codes "workers") w.count) }
    ensures none { IfNone result ((n : ℕ) → IsInRange n 1 MAX_WORKERS → Gives (rows_of (found_of matches.now)) (codes "workers") n → ⊥) }
{
    let count = number(matches, "workers", 1, MAX_WORKERS)?;
    Some(Workers { count })
}

/// The options of a job over a range.
pub fn read_range(matches: &ArgMatches) -> Option<RangeOptions>
    ensures given { IfSome result (λ o. GivesRange (rows_of (found_of matches.now)) o) }
    ensures none { IfNone result ((o : RangeOptions) → IsRange o → GivesRange (rows_of (found_of matches.now)) o → ⊥) }
{
    match (
        number(matches, "from", 0, u32::MAX),
        number(matches, "to", 0, u32::MAX),
        number(matches, "grain", 1, u32::MAX),
        read_workers(matches),
    ) {
        (Some(from), Some(to), Some(grain), Some(workers)) => Some(RangeOptions {
            from,
            to,
            grain,
            workers,
            eager: flag(matches, "eager"),
        }),
        _ => None,
    }
}

/// The options of a function.
pub fn read_function(matches: &ArgMatches) -> Option<FunctionOptions>
    ensures given { IfSome result (λ f. GivesFunction (rows_of (found_of matches.now)) f) }
    ensures none { IfNone result ((f : FunctionOptions) → IsFunction f → GivesFunction (rows_of (found_of matches.now)) f → ⊥) }
{
    match (
        number(matches, "mul", 0, u32::MAX),
        number(matches, "add", 0, u32::MAX),
        number(matches, "mod", 1, u32::MAX),
    ) {
        (Some(mul), Some(add), Some(modulus)) => Some(FunctionOptions { mul, add, modulus }),
        _ => None,
    }
}

/// The wanted value.
pub fn read_want(matches: &ArgMatches) -> Option<u32>
    ensures given { IfSome result (λ n. Gives (rows_of (found_of matches.now)) (codes "want") n) }
    ensures none { IfNone result ((n : ℕ) → IsInRange n 0 4294967295 → Gives (rows_of (found_of matches.now)) (codes "want") n → ⊥) }
{
    number(matches, "want", 0, u32::MAX)
}

/// The view of this name.
fn view_named(name: &str) -> Option<ViewName>
    ensures { NamesView name.now result }
{
    match name {
        "tasks" => Some(ViewName::Tasks),
        "stats" => Some(ViewName::Stats),
        "path" => Some(ViewName::Path),
        "chrome" => Some(ViewName::Chrome),
        "dot" => Some(ViewName::Dot),
        "svg" => Some(ViewName::Svg),
        _ => None,
    }
}

/// The view that is named, None if there is none of this name; None also without a name.
fn read_view_name(matches: &ArgMatches) -> Option<Option<ViewName>>
    ensures given { IfSome result (λ name. GivesViewName (rows_of (found_of matches.now)) name) }
    ensures none { IfNone result ((name : Option ViewName) → GivesViewName (rows_of (found_of matches.now)) name → ⊥) }
{
    match matches.get_str("as") {
        Some(name) => Some(view_named(name)),
        None => None,
    }
}

/// The options of a view.
pub fn read_view<'a>(matches: &ArgMatches<'a>) -> Option<ViewOptions<'a>>
    ensures given { IfSome result (λ o. GivesView (rows_of (found_of matches.now)) o) }
    ensures none { IfNone result ((o : ViewOptions) → IsWindow o → GivesView (rows_of (found_of matches.now)) o → ⊥) }
{
    match (
        read_view_name(matches),
        number(matches, "from", 1, u32::MAX),
        number(matches, "to", 1, u32::MAX),
    ) {
        (Some(name), Some(from), Some(to)) => Some(ViewOptions {
            name,
            from,
            to,
            notes: matches.get_str("notes"),
        }),
        _ => None,
    }
}
