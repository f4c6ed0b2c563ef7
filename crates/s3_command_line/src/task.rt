//! What the words of a command line ask for, by the matches of `clap`.

ghost use Rattle.std.specs.Prelude.{◌≡◌, IfOk, MatchOption, [], map, option_map, unwrap_or};
ghost use Rattle.clap.specs.Words.{all_of, found_of, rows_of};
ghost use Rattle.s3_command_line.specs.Words.{dialect_in, HasOptions, HasReplayOptions, HasServeOptions, HasSignOptions, is_set};
ghost use Rattle.s3_command_line.specs.Task.{AskFor, AskForNothing, AskForNoTask, AskForTask};

use crate::command::{BODY_LIMIT, DIALECT, MAX_CONNECTIONS, MIN_PART, REGION, WORKERS};
use clap::ArgMatches;
use s3_settings::{Options, ReplayOptions, ServeOptions, SignOptions};
use std::alloc::{AllocError, Global};

/// What the words of a command line ask for.
#[derive(Drop)]
pub enum Asked<'a> {
    /// One text on the standard output.
    Work(Task<'a>),
    /// A server that listens on a socket.
    Server(ServeOptions<'a>),
}

/// What is written to the standard output.
#[derive(Drop)]
pub enum Task<'a> {
    /// To answer one connection, or several.
    Replay(ReplayOptions<'a>),
    /// To write one signed request, or its address.
    Sign(SignOptions<'a>),
}

impl<'a> Asked<'a> {
    /// What the matches of the program's command line ask for; `None` where they have no subcommand.
    pub(crate) fn of_matches(
        alloc: Global,
        matches: &ArgMatches<'a>,
    ) -> Result<Option<Asked<'a>>, AllocError>
        ensures { IfOk result (λ asked. MatchOption asked (AskForNothing matches.now) (AskFor matches.now)) }
    {
        if let Some(options) = matches.subcommand_matches("serve") {
            return Ok(Some(Asked::Server(serve_options(options))));
        }
        match Task::of_matches(alloc, matches)? {
            Some(task) => Ok(Some(Asked::Work(task))),
            None => Ok(None),
        }
    }
}

impl<'a> Task<'a> {
    // The task that the matches ask for; `None` where they have the subcommand of none.
    fn of_matches(alloc: Global, matches: &ArgMatches<'a>) -> Result<Option<Task<'a>>, AllocError>
        ensures { IfOk result (λ task. MatchOption task (AskForNoTask matches.now) (AskForTask matches.now)) }
    {
        if let Some(options) = matches.subcommand_matches("replay") {
            return Ok(Some(Task::Replay(replay_options(options))));
        }
        match matches.subcommand_matches("sign") {
            Some(options) => {
                let options = sign_options(alloc, options)?;
                Ok(Some(Task::Sign(options)))
            }
            None => Ok(None),
        }
    }
}

// The options that each subcommand has, with this dialect and this kind of records, if one is named.
#[tactic(auto, using(crate::proofs::WordsLemmas::rows))]
fn common_options<'a>(
    matches: &ArgMatches<'a>,
    dialect: &'a str,
    records: Option<&'a str>,
) -> Options<'a>
    ensures { HasOptions (rows_of (found_of matches.now)) dialect.entry.now (option_map (λ text. text.now) records.entry) result }
{
    Options {
        keys: matches.get_str("keys"),
        region: matches.get_str("region").unwrap_or(REGION),
        min_part: matches.get_str("min-part").unwrap_or(MIN_PART),
        body_limit: matches.get_str("body-limit").unwrap_or(BODY_LIMIT),
        bucket: matches.get_str("bucket"),
        dialect,
        records,
    }
}

// The dialect that an option says, or the default one.
#[tactic(auto, using(crate::proofs::WordsLemmas::rows))]
fn dialect<'a>(matches: &ArgMatches<'a>) -> &'a str
    ensures { result.now ≡ dialect_in (rows_of (found_of matches.now)) }
{
    matches.get_str("dialect").unwrap_or(DIALECT)
}

// The options of a replay.
#[tactic(auto, using(crate::proofs::WordsLemmas::rows))]
fn replay_options<'a>(matches: &ArgMatches<'a>) -> ReplayOptions<'a>
    ensures { HasReplayOptions (rows_of (found_of matches.now)) result }
{
    let folder = matches.get_str("data");
    ReplayOptions {
        common: common_options(matches, dialect(matches), matches.get_str("records")),
        moment: matches.get_str("moment"),
        events: is_set(matches.get_str("events")),
        faults: is_set(matches.get_str("faults")),
        folder,
    }
}

// Whether the value of a flag says that it is there.
fn is_set(value: Option<&str>) -> bool
    ensures { result ≡ is_set (option_map (λ text. text.now) value.entry) }
{
    match value {
        Some(text) => text == "true",
        None => false,
    }
}

// The options of a server.
#[tactic(auto, using(crate::proofs::WordsLemmas::rows))]
fn serve_options<'a>(matches: &ArgMatches<'a>) -> ServeOptions<'a>
    ensures { HasServeOptions (rows_of (found_of matches.now)) result }
{
    ServeOptions {
        common: common_options(matches, dialect(matches), matches.get_str("records")),
        listen: matches.get_str("listen"),
        workers: matches.get_str("workers").unwrap_or(WORKERS),
        max_connections: matches
            .get_str("max-connections")
            .unwrap_or(MAX_CONNECTIONS),
        connections: matches.get_str("connections"),
        rounds: matches.get_str("rounds"),
        log: matches.get_str("log"),
        folder: matches.get_str("data"),
    }
}

// The options of a signing.
#[tactic(auto, using(crate::proofs::WordsLemmas::rows))]
fn sign_options<'a>(alloc: Global, matches: &ArgMatches<'a>) -> Result<SignOptions<'a>, AllocError>
    ensures { IfOk result (HasSignOptions (rows_of (found_of matches.now))) }
{
    let headers = all_values(alloc, matches, "header")?;
    Ok(SignOptions {
        common: common_options(matches, DIALECT, None),
        moment: matches.get_str("moment"),
        id: matches.get_str("id"),
        method: matches.get_str("method"),
        target: matches.get_str("target"),
        host: matches.get_str("host"),
        body: matches.get_str("body"),
        chunk: matches.get_str("chunk"),
        presign: matches.get_str("presign"),
        url: is_set(matches.get_str("url")),
        headers,
    })
}

// All values of an argument; none where it is not there.
#[tactic(auto, using(crate::proofs::WordsLemmas::rows))]
fn all_values<'a>(
    alloc: Global,
    matches: &ArgMatches<'a>,
    name: &str,
) -> Result<Vec<&'a str>, AllocError>
    ensures { IfOk result (λ values. map (λ text. text.now) values.items ≡ unwrap_or (all_of name.now (rows_of (found_of matches.now))) []) }
{
    match matches.get_strs(name) {
        Some(values) => Vec::from_slice(alloc, values),
        None => Ok(Vec::new(alloc)),
    }
}
