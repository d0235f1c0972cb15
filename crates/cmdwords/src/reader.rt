ghost use Rattle.std.specs.Prelude.{◌≡◌, List, [], ◌∷◌, IfOk, MatchOption, map, option_map, false, true};
ghost use Rattle.clap.specs.Words.{all_of, app_of, first_value, found_of, is_simple_and_free, rows_of, rule_of};
ghost use Rattle.cmdwords.specs.Form.{HasNames, form_of};
ghost use Rattle.cmdwords.specs.Asks.{Asked, Asks};
ghost use Rattle.cmdwords.specs.Given.{Fills, asked, texts};
ghost use Rattle.cmdwords.specs.Splitting.{IsSplit, app_with, listed, option_rule};

use crate::form::Form;
use crate::place::Place;
use crate::value::{Value, values};
use clap::builder::ValueParser;
use clap::error::ErrorKind;
use clap::{Arg, ArgAction, ArgMatches, Command};
use std::alloc::{AllocError, Global};

/// What the words of a form ask for: what they say at the form's places, and the values of its options, in the form's
/// order.
#[derive(Debug, Drop)]
pub struct Given<'a> {
    pub values: Vec<Value<'a>>,
    pub options: Vec<Option<&'a str>>,
}

/// An option of `clap` with this name and one value, which isn't empty.
fn option<'a>(alloc: Global, name: &'a str) -> Arg<'a>
    ensures rule { rule_of result ≡ option_rule name.entry.now }
    ensures local { result.global ≡ false }
{
    Arg::new(alloc, name)
        .long(name)
        .value_parser(ValueParser::NonEmptyString)
}

/// The command by which `clap` splits the words, with no option yet. Its places are one argument with as many values as
/// there are, under the id `=`, which no option's name can be. It has no help.
fn places_command<'a>(alloc: Global, mode: &'a str) -> Result<Command<'a>, AllocError>
    ensures { IfOk result (λ c. app_of c ≡ app_with mode.entry.now []) }
{
    let places = Arg::new(alloc, "=").action(ArgAction::Append);
    Command::new(alloc, mode)
        .disable_help_flag(true)
        .arg(places)
}

/// The command with options of these names.
fn command<'a>(
    alloc: Global,
    mode: &'a str,
    names: &'a [&'a str],
) -> Result<Command<'a>, AllocError>
    ensures { IfOk result (λ c. app_of c ≡ app_with mode.entry.now (map (λ name. name.now) names.entry.now)) }
{
    let mut command = places_command(alloc, mode)?;
    for name in names {
        command = command.arg(option(alloc, *name))?;
    }
    Ok(command)
}

/// What the command finds in the words.
fn split<'a>(
    command: Command<'a>,
    words: &'a [String],
) -> Result<Option<ArgMatches<'a>>, AllocError>
    requires { is_simple_and_free (app_of command) ≡ true }
    ensures { IfOk result (IsSplit (app_of command.entry) (texts words.entry.now)) }
{
    match command.try_get_matches_from(words) {
        Ok(matches) => Ok(Some(matches)),
        Err(error) => match error.kind() {
            ErrorKind::OutOfMemory => Err(AllocError),
            _ => Ok(None),
        },
    }
}

/// What `clap` finds in the words of a form.
fn matches<'a>(
    alloc: Global,
    form: Form<'a>,
    words: &'a [String],
) -> Result<Option<ArgMatches<'a>>, AllocError>
    ensures { IfOk result (IsSplit (app_with form.entry.mode.now (map (λ name. name.now) form.entry.options.now)) (texts words.entry.now)) }
{
    let command = command(alloc, form.mode, form.options)?;
    split(command, words)
}

/// The values of the options, in their order.
fn options<'a>(
    alloc: Global,
    names: &[&str],
    matches: &ArgMatches<'a>,
) -> Result<Vec<Option<&'a str>>, AllocError>
    ensures { IfOk result (λ v. map (option_map (λ text. text.now)) v.items
        ≡ map (λ name. first_value (found_of matches.now) name.now) names.now) }
{
    let mut options = Vec::new(alloc);
    for name in names {
        options.push(matches.get_str(*name))?;
    }
    Ok(options)
}

/// What the place words say at the places, if they have their number and each may stand at its place.
fn place_values<'a>(
    alloc: Global,
    places: &[Place],
    matches: &ArgMatches<'a>,
) -> Result<Option<Vec<Value<'a>>>, AllocError>
    ensures { IfOk result (Fills places.now (listed (all_of (61 ∷ []) (rows_of (found_of matches.now))))) }
{
    match matches.get_raw("=") {
        Some(words) => values(alloc, places, words),
        None => values(alloc, places, &[]),
    }
}

/// What the words ask for, where they have the form.
pub fn read<'a>(
    alloc: Global,
    form: Form<'a>,
    words: &'a [String],
) -> Result<Option<Given<'a>>, AllocError>
    requires { HasNames (form_of form) }
    ensures { IfOk result (λ o. MatchOption o ((a : Asked) → Asks (form_of form.entry) (texts words.entry.now) a → ⊥)
        (λ given. Asks (form_of form.entry) (texts words.entry.now) (asked given))) }
{
    // `clap` takes the first word for the program's name, whatever it is.
    let Some(mode) = words.first() else {
        return Ok(None);
    };
    if mode.as_str() != form.mode {
        return Ok(None);
    }
    let Some(matches) = matches(alloc, form, words)? else {
        return Ok(None);
    };
    let Some(values) = place_values(alloc, form.places, &matches)? else {
        return Ok(None);
    };
    let options = options(alloc, form.options, &matches)?;
    Ok(Some(Given { values, options }))
}
