//! Words are read.

ghost use Rattle.std.specs.Prelude.{◌≡◌, ◌≢◌, IfOk, IfErr, map};
ghost use Rattle.clap.specs.Words.{app_of, kind_of};
ghost use Rattle.s3_command_line.specs.declared.error.WordsError.TheVariants.{OutOfMemory};
ghost use Rattle.s3_command_line.specs.Words.{s3d_app, AreRightWords, IsAskedBy};

use crate::command::command;
use crate::error::WordsError;
use crate::task::Asked;
use clap::error::ErrorKind;
use clap::{Command, Error};
use std::alloc::Global;
use std::convert::AsStr;

/// Reads the words of a command line, of which the first is the program's name. Where they are wrong or
/// ask for help the error has the text for the user.
pub fn read_words<'a, S: AsStr>(alloc: Global, words: &'a [S]) -> Result<Asked<'a>, WordsError>
    ensures value { IfOk result (IsAskedBy (map S.text words.entry.now)) }
    ensures refused { IfErr result (λ error. error ≢ OutOfMemory → ¬ AreRightWords (map S.text words.entry.now)) }
{
    let mut command = command(alloc)?;
    let asked = parse(alloc, &mut command, words);
    drop(command);
    asked
}

// Reads the words by the program's command line.
fn parse<'a, S: AsStr>(
    alloc: Global,
    command: &mut Command<'a>,
    words: &'a [S],
) -> Result<Asked<'a>, WordsError>
    requires { app_of command.old ≡ s3d_app }
    ensures value { IfOk result (IsAskedBy (map S.text words.entry.now)) }
    ensures refused { IfErr result (λ error. error ≢ OutOfMemory → ¬ AreRightWords (map S.text words.entry.now)) }
{
    let matches = match command.try_get_matches_from_mut(words) {
        Ok(matches) => matches,
        Err(error) => return Err(WordsError::of_parse(alloc, error)),
    };
    let asked = Asked::of_matches(alloc, &matches);
    drop(matches);
    match asked? {
        Some(asked) => Ok(asked),
        None => Err(WordsError::of_parse(alloc, no_subcommand(command))),
    }
}

// The error that says that no subcommand is named.
fn no_subcommand(command: &mut Command<'_>) -> Error
    ensures { kind_of result ≢ ErrorKind.OutOfMemory → kind_of result ≡ ErrorKind.MissingSubcommand }
{
    match command.error(ErrorKind::MissingSubcommand, "a subcommand is missing") {
        Ok(error) => error,
        Err(error) => Error::from(error),
    }
}
