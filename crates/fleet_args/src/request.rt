//! The command line, and the request that its words make.

ghost use Rattle.std.specs.Prelude.{◌≡◌, true, find, map, option_map, string_bytes, IfOk, IsOkAnd};
ghost use Rattle.std.specs.Str.{bytes_eq};
ghost use Rattle.clap.specs.Words.{App, IsParsedFrom, app_of, is_simple_and_free, kind_of};
ghost use Rattle.fleet_args.specs.Commands.{fleet, with_commands};
ghost use Rattle.fleet_args.specs.Request.{IsStopOf, Parses, ReadsFleet, command_and_rest};
ghost use Rattle.fleet_args.specs.{Arguments.own, Arguments.said, Values.AreNames, Values.rows_in};

use crate::arguments::{CommandText, OptionNames, command_of};
use crate::commands::{Request, commands, request_by};
use clap::error::ErrorKind;
use clap::{ArgMatches, Command};
use std::alloc::{AllocError, Global};
use thiserror::Error;

/// Why the words are no request. The texts are `clap`'s, of whole lines: the error and how to get help, or the help.
#[derive(Debug, Drop, Error)]
pub enum WordStop {
    #[error("out of memory")]
    OutOfMemory,
    #[error("{0}")]
    Usage(String),
    #[error("{0}")]
    Help(String),
}

/// The text of an error, as usage or as help.
fn stop_of(alloc: Global, error: &clap::Error) -> WordStop
    ensures { IsStopOf (kind_of error.now) result }
{
    if error.kind() == ErrorKind::OutOfMemory {
        return WordStop::OutOfMemory;
    }
    match error.to_string(alloc) {
        Ok(text) if error.use_stderr() => WordStop::Usage(text),
        Ok(text) => WordStop::Help(text),
        Err(_) => WordStop::OutOfMemory,
    }
}

/// What `clap` finds in the words by this command, or why it does not take them.
fn matches_by<'a>(
    alloc: Global,
    command: Result<Command<'a>, AllocError>,
    words: &'a [String],
) -> Result<ArgMatches<'a>, WordStop>
    requires { (app : App) × (is_simple_and_free app ≡ true) × IfOk command (λ c. app_of c ≡ app) }
    ensures values { (app : App) → IfOk command.entry (λ c. app_of c ≡ app)
        → Parses app (map string_bytes words.entry.now) (λ rows m. rows_in m ≡ rows) result }
    ensures parsed { IfOk result (λ m. IsOkAnd command.entry (λ c. IsParsedFrom c m)) }
{
    let Ok(command) = command else {
        return Err(WordStop::OutOfMemory);
    };
    match command.try_get_matches_from(words) {
        Ok(matches) => Ok(matches),
        Err(error) => Err(stop_of(alloc, &error)),
    }
}

/// The first command of this name among these.
fn command_among<'t>(texts: &'t [CommandText], name: &str) -> Option<&'t CommandText>
    ensures { option_map (λ text. text.now) result
        ≡ find (λ text. bytes_eq text.name.now name.now) texts.now }
{
    texts.iter().find(|text| text.name == name)
}

/// The command with whose name the words begin, and the words after it.
fn command_and_rest(words: &[String]) -> Option<(&'static CommandText, &[String])>
    ensures { option_map (λ found. (said found.0.now, map string_bytes found.1.now)) result
        ≡ command_and_rest (map string_bytes words.entry.now) }
{
    let (name, rest) = words.split_first()?;
    match command_among(commands(), name.as_str()) {
        Some(text) => Some((text, rest)),
        None => None,
    }
}

/// The command by itself, whose words begin after its name.
fn own_command<'a>(
    alloc: Global,
    names: OptionNames<'a>,
    text: &CommandText,
) -> Result<Command<'a>, AllocError>
    ensures { IfOk result (λ command. app_of command ≡ own names.entry (said text.now)) }
{
    command_of(alloc, names, text)?
        .no_binary_name(true)
        .bin_name(text.line)
}

/// The names that options take.
fn option_names() -> OptionNames<'static>
    ensures { AreNames result }
{
    OptionNames {
        deps: &["all", "last"],
        best: &["chain", "cost"],
    }
}

/// Reads the words after the program's name, as `clap` reads them by the definition of the command line. The command
/// with whose name they begin is asked by itself: to make it costs a tenth of what it costs to make the whole command
/// line, and both read alike (`commands_stand_alone`).
///
/// Errors: `Usage` and `Help` only if that definition does not take the words, and `Help` only if they ask for help or
/// for the version; `OutOfMemory`.
pub fn read_words<'a>(alloc: Global, words: &'a [String]) -> Result<Request<'a>, WordStop>
    ensures { ReadsFleet (map string_bytes words.entry.now) result }
{
    let names = option_names();
    let Some((text, rest)) = command_and_rest(words) else {
        return match matches_by(alloc, fleet_command(alloc, names), words) {
            // The words begin with the name of no command, and the command line does not take such.
            Ok(_) => unreachable!(),
            Err(stop) => Err(stop),
        };
    };
    match matches_by(alloc, own_command(alloc, names, text), rest) {
        Ok(matches) => Ok(request_by(text.name, &matches)),
        Err(stop) => Err(stop),
    }
}

/// The command line with these commands after those that it has.
fn with_commands<'a>(
    alloc: Global,
    line: Command<'a>,
    names: OptionNames<'a>,
    texts: &[CommandText],
) -> Result<Command<'a>, AllocError>
    ensures { IfOk result (λ command. app_of command
        ≡ with_commands names.entry (app_of line.entry) (map said texts.now)) }
{
    let Some((first, rest)) = texts.split_first() else {
        return Ok(line);
    };
    let line = line.subcommand(command_of(alloc, names, first)?)?;
    with_commands(alloc, line, names, rest)
}

/// The whole command line, with these names. Its words do not begin with the program's name.
fn fleet_command<'a>(alloc: Global, names: OptionNames<'a>) -> Result<Command<'a>, AllocError>
    ensures { IfOk result (λ command. app_of command ≡ fleet names.entry) }
{
    let line = Command::new(alloc, "fleet")
        .about(
            "Programs for a fleet of robots on a grid. Without a command: waits for one as hexadecimal text on \
             standard input",
        )
        .override_usage("fleet <COMMAND>\n       fleet < HEXADECIMAL")
        .after_help(
            "Without a command: rehearses, with nobody held, the program that standard input gives in hexadecimal.\n\
             Status: 0 done, 1 refused or stuck, 2 wrong usage, 3 a file, the output or memory failed.\n\
             A refusal is one line on standard error: part, number, name, particulars. docs/REFUSALS.md explains each.",
        )
        .no_binary_name(true)
        .version("1.0")
        .subcommand_required(true)
        .bin_name("fleet")?;
    with_commands(alloc, line, names, commands())
}
