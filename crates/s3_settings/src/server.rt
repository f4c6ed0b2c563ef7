//! What a server is started with: how it runs, and its settings.

ghost use Rattle.std.specs.Prelude.{◌≡◌, ◌≤◌, false, Some, None, IfOk, IfErr, option_map};
ghost use Rattle.s3_settings.specs.Server.{are_serve_options, connections_asked, rounds_asked, rounds_end, greatest_held, greatest_workers, positive, IsServeModeOf, IsServer, IsServerFault};
ghost use Rattle.s3_settings.specs.Server as rules;
ghost use Rattle.s3_settings.specs.Settings.{option_number, records_asked};
ghost use Rattle.s3_settings.specs.declared.fault.Fault.TheVariants.{BadSetting};

use crate::fault::Fault;
use crate::files::Files;
use crate::folder::are_together;
use crate::options::ServeOptions;
use crate::records_kind::RecordsKind;
use crate::settings::{Setup, configure, option_number};
use s3_config::Config;
use std::alloc::Global;

// The most threads that serve connections.
const WORKERS_MAX: u64 = 64;

// The most connections that are held at a time.
const HELD_MAX: u64 = 65_536;

/// How a server runs.
#[derive(Clone, Copy)]
pub struct ServeMode<'a> {
    /// The address that it listens on, a host and a port.
    pub address: &'a str,
    /// How many threads serve connections, from 1 to 64.
    pub workers: u64,
    /// How many connections it holds at a time, from 1 to 65,536.
    pub most_held: u64,
    /// After how many connections it ends, from 1; without a number it goes on.
    pub connections: Option<u64>,
    /// How many times it serves so many connections, from 1; it is 1 where no number of connections ends it.
    pub rounds: u64,
    /// The path of the file that tells of its messages, or `-` for the standard error; without one nothing tells of them.
    pub log: Option<&'a str>,
    /// The path of the folder that keeps the store; without one it is gone when the server ends.
    pub folder: Option<&'a str>,
}

impl<'a> ServeMode<'a> {
    /// What the options ask for; `BadSetting` where one of them isn't there or out of its form.
    #[tactic(auto, unfolding(crate::specs::Server::are_serve_options))]
    pub fn read(options: &ServeOptions<'a>) -> Result<ServeMode<'a>, Fault<'a>>
        ensures value { IfOk result (IsServeModeOf options.now) }
        ensures workers { IfOk result (λ mode. (1 ≤ mode.workers) × (mode.workers ≤ greatest_workers)) }
        ensures held { IfOk result (λ mode. (1 ≤ mode.most_held) × (mode.most_held ≤ greatest_held)) }
        ensures rounds { IfOk result (λ mode. 1 ≤ mode.rounds) }
        ensures refused { IfErr result (λ fault. (fault ≡ BadSetting) × (are_serve_options options.now ≡ false)) }
    {
        let Some(address) = options.listen else {
            return Err(Fault::BadSetting);
        };
        let Some(workers) = up_to(WORKERS_MAX, options.workers) else {
            return Err(Fault::BadSetting);
        };
        let Some(most_held) = up_to(HELD_MAX, options.max_connections) else {
            return Err(Fault::BadSetting);
        };
        let connections = connections(options.connections)?;
        let Some(rounds) = rounds_asked(options.rounds) else {
            return Err(Fault::BadSetting);
        };
        if !rounds_end(options.rounds, options.connections) {
            return Err(Fault::BadSetting);
        }
        if !are_together(options.folder, options.common.records) {
            return Err(Fault::BadSetting);
        }
        Ok(ServeMode {
            address,
            workers,
            most_held,
            connections,
            rounds,
            log: options.log,
            folder: options.folder,
        })
    }
}

// Whether these options may stand together: rounds that are asked for end, after a number of connections each.
fn rounds_end(rounds: Option<&str>, connections: Option<&str>) -> bool
    ensures { result ≡ rounds_end (option_map (λ text. text.now) rounds.entry) (option_map (λ text. text.now) connections.entry) }
{
    match rounds {
        Some(_) => connections.is_some(),
        None => true,
    }
}

// The number that a text says, from 1 to a greatest one.
fn up_to(greatest: u64, text: &str) -> Option<u64>
    ensures { result ≡ rules.up_to greatest (option_number text.now) }
{
    let count = option_number(text)?;
    if 1 <= count && count <= greatest {
        Some(count)
    } else {
        None
    }
}

// The number of connections that an option asks for, where it is there.
fn connections<'a>(option: Option<&str>) -> Result<Option<u64>, Fault<'a>>
    ensures value { IfOk result (λ count. connections_asked (option_map (λ text. text.now) option.entry) ≡ Some count) }
    ensures refused { IfErr result (λ fault. (fault ≡ BadSetting)
        × (connections_asked (option_map (λ text. text.now) option.entry) ≡ None)) }
{
    let Some(text) = option else {
        return Ok(None);
    };
    match positive_number(text) {
        Some(count) => Ok(Some(count)),
        None => Err(Fault::BadSetting),
    }
}

// The number of rounds that an option asks for; one where it isn't there.
fn rounds_asked(option: Option<&str>) -> Option<u64>
    ensures { result ≡ rounds_asked (option_map (λ text. text.now) option.entry) }
{
    match option {
        Some(text) => positive_number(text),
        None => Some(1),
    }
}

// The number from 1 that a text says.
fn positive_number(text: &str) -> Option<u64>
    ensures { result ≡ positive (option_number text.now) }
{
    let count = option_number(text)?;
    if 1 <= count { Some(count) } else { None }
}

/// How the server runs that the options ask for, how it keeps its records, and its settings, which they and the keys file
/// make.
///
/// # Errors
///
/// In this order, the first that applies: `BadSetting` where an option is out of its form, `CannotRead` and
/// `BadKeysLine` of the keys file, `BadSetting` where no server accepts the settings. `OutOfMemory` only where every
/// option is of its form.
pub fn server_settings<'a, F: Files>(
    alloc: Global,
    options: &ServeOptions<'a>,
    files: &F,
) -> Result<(ServeMode<'a>, RecordsKind, Config), Fault<'a>>
    ensures value { IfOk result (λ server. IsServer (F.known files.now) options.now server.0 server.2) }
    ensures records { IfOk result (λ server. records_asked (option_map (λ text. text.now) options.now.common.records) ≡ Some server.1) }
    ensures workers { IfOk result (λ server. (1 ≤ server.0.workers) × (server.0.workers ≤ greatest_workers)) }
    ensures held { IfOk result (λ server. (1 ≤ server.0.most_held) × (server.0.most_held ≤ greatest_held)) }
    ensures rounds { IfOk result (λ server. 1 ≤ server.0.rounds) }
    ensures refused { IfErr result (IsServerFault (F.known files.now) options.now) }
{
    let mode = ServeMode::read(options)?;
    let setup = Setup::read(alloc, &options.common)?;
    let records = setup.records;
    let config = configure(alloc, setup, files)?;
    Ok((mode, records, config))
}
