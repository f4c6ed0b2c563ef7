//! The command line of the program, as `clap` is told it: tables of its arguments.

ghost use Rattle.std.specs.Prelude.{◌≡◌, IfOk, false};
ghost use Rattle.clap.specs.Words.{app_of, new_app, rule_of, with_subcommand};
ghost use Rattle.clap.specs.declared.builder.command.Command.TheViews.{out-Command as fields_of};
ghost use Rattle.s3_command_line.specs.Words.{with_settings, replay_app, sign_app, serve_app, bare_app, s3d_app};
ghost use Rattle.s3_command_line.specs.Command.{rule_of_argument, with_arguments, IsTold};

use clap::{Arg, ArgAction, Command};
use std::alloc::{AllocError, Global};

/// The region that signatures name where no option says another.
pub(crate) const REGION: &str = "us-east-1";

/// The least size of a part that is not the last, in bytes, where no option says another: 5 MiB.
pub(crate) const MIN_PART: &str = "5242880";

/// The greatest size of a body, in bytes, where no option says another: 64 MiB.
pub(crate) const BODY_LIMIT: &str = "67108864";

/// How documents are spelled where no option says another dialect: as JSON.
pub(crate) const DIALECT: &str = "json";

/// How many threads serve connections where no option says another number.
pub(crate) const WORKERS: &str = "8";

/// How many connections are held at a time where no option says another number.
pub(crate) const MAX_CONNECTIONS: &str = "1024";

// What `s3d --version` says behind the name.
const VERSION: &str = "0.2.0";

// An argument of a command line.
#[derive(Clone, Copy)]
struct Argument<'a> {
    name: &'a str,
    /// What help calls its value, where it has one.
    value: &'a str,
    help: &'a str,
    kind: Kind<'a>,
}

// How an argument is given.
#[derive(Clone, Copy)]
enum Kind<'a> {
    /// As `--name VALUE`, or not at all.
    Optional,
    /// As `--name VALUE`.
    Required,
    /// As `--name VALUE`, or not at all, and then it has this value.
    Defaulted(&'a str),
    /// As `--name` alone, or not at all.
    Flag,
    /// As words without a name, as many as there are.
    Words,
}

// The options that the settings of a server are made of.
static SETTINGS: [Argument; 5] = [
    Argument {
        name: "keys",
        value: "FILE",
        help: "The credentials, one a line: an id, one space and the secret",
        kind: Kind::Required,
    },
    Argument {
        name: "region",
        value: "R",
        help: "The region that signatures name",
        kind: Kind::Defaulted(REGION),
    },
    Argument {
        name: "min-part",
        value: "N",
        help: "The least size of a part that is not the last, in bytes",
        kind: Kind::Defaulted(MIN_PART),
    },
    Argument {
        name: "body-limit",
        value: "N",
        help: "The greatest size of a body, in bytes",
        kind: Kind::Defaulted(BODY_LIMIT),
    },
    Argument {
        name: "bucket",
        value: "NAME",
        help: "A bucket that is there from the start",
        kind: Kind::Optional,
    },
];

// The option of what answers requests, and so writes and reads documents.
const SPELLING: Argument = Argument {
    name: "dialect",
    value: "D",
    help: "How documents are spelled: json, or s3 for XML as S3 has it",
    kind: Kind::Defaulted(DIALECT),
};

// The option of what has a store, and so keeps records.
const KEEPING: Argument = Argument {
    name: "records",
    value: "K",
    help: "How records are kept: map, which is the default, or sql for tables of SQLite",
    kind: Kind::Optional,
};

// The option of what has a store, and may keep it.
const LASTING: Argument = Argument {
    name: "data",
    value: "FOLDER",
    help: "Keeps the store in FOLDER, and goes on with one that is there",
    kind: Kind::Optional,
};

// The further options of `s3d replay`.
static REPLAYING: [Argument; 6] = [
    SPELLING,
    KEEPING,
    Argument {
        name: "moment",
        value: "T",
        help: "The moment of every message, in seconds since 1970",
        kind: Kind::Optional,
    },
    Argument {
        name: "events",
        value: "",
        help: "Reads event lines of several connections, each with moments of its own",
        kind: Kind::Flag,
    },
    Argument {
        name: "faults",
        value: "",
        help: "Tells of each connection the first message that is refused; only with event lines",
        kind: Kind::Flag,
    },
    LASTING,
];

// The further arguments of `s3d sign`.
static SIGNING: [Argument; 10] = [
    Argument {
        name: "id",
        value: "ID",
        help: "The id of the access key that signs",
        kind: Kind::Required,
    },
    Argument {
        name: "moment",
        value: "T",
        help: "When it is signed, in seconds since 1970",
        kind: Kind::Required,
    },
    Argument {
        name: "method",
        value: "M",
        help: "The method",
        kind: Kind::Required,
    },
    Argument {
        name: "target",
        value: "X",
        help: "The target",
        kind: Kind::Required,
    },
    Argument {
        name: "host",
        value: "H",
        help: "The value of the host line",
        kind: Kind::Required,
    },
    Argument {
        name: "body",
        value: "FILE",
        help: "The body; empty by default",
        kind: Kind::Optional,
    },
    Argument {
        name: "chunk",
        value: "N",
        help: "Sends the body in signed chunks of so many bytes",
        kind: Kind::Optional,
    },
    Argument {
        name: "presign",
        value: "SECONDS",
        help: "Signs in the target, for so many seconds from the moment, at most 604800",
        kind: Kind::Optional,
    },
    Argument {
        name: "url",
        value: "",
        help: "Writes the address of the presigned request alone",
        kind: Kind::Flag,
    },
    Argument {
        name: "header",
        value: "NAME:VALUE",
        help: "A further header line",
        kind: Kind::Words,
    },
];

// The further options of `s3d serve`.
static SERVING: [Argument; 9] = [
    SPELLING,
    KEEPING,
    Argument {
        name: "listen",
        value: "ADDR",
        help: "The address to listen on: a host, a colon and a port, which is 0 for any that is free",
        kind: Kind::Required,
    },
    Argument {
        name: "workers",
        value: "N",
        help: "How many threads serve connections, at most 64",
        kind: Kind::Defaulted(WORKERS),
    },
    Argument {
        name: "max-connections",
        value: "N",
        help: "How many connections are held at a time, at most 65,536",
        kind: Kind::Defaulted(MAX_CONNECTIONS),
    },
    Argument {
        name: "connections",
        value: "N",
        help: "Ends after so many connections",
        kind: Kind::Optional,
    },
    Argument {
        name: "rounds",
        value: "M",
        help: "Serves so many connections M times, once by default; only with a number of connections",
        kind: Kind::Optional,
    },
    Argument {
        name: "log",
        value: "FILE",
        help: "Appends a line for each message to FILE, or to the standard error where FILE is -",
        kind: Kind::Optional,
    },
    LASTING,
];

/// The command line of the program.
pub(crate) fn command<'a>(alloc: Global) -> Result<Command<'a>, AllocError>
    ensures app { IfOk result (λ command. app_of command ≡ s3d_app) }
{
    let command = with_replaying(alloc, bare_command(alloc))?;
    let command = with_signing(alloc, command)?;
    with_serving(alloc, command)
}

// The program's command line before it has a subcommand.
fn bare_command<'a>(alloc: Global) -> Command<'a>
    ensures app { app_of result ≡ bare_app }
{
    Command::new(alloc, "s3d")
        .version(VERSION)
        .about("Answers and signs requests of the Amazon S3 REST API")
        .subcommand_required(true)
        .arg_required_else_help(true)
}

// Adds `s3d replay` to a command line.
fn with_replaying<'a>(alloc: Global, command: Command<'a>) -> Result<Command<'a>, AllocError>
    ensures app { IfOk result (λ with. app_of with ≡ with_subcommand (app_of command.entry) replay_app.top) }
{
    let about = "Reads connections from standard input and writes what they are answered";
    with_subcommand(alloc, command, "replay", about, &REPLAYING)
}

// Adds `s3d sign` to a command line.
fn with_signing<'a>(alloc: Global, command: Command<'a>) -> Result<Command<'a>, AllocError>
    ensures app { IfOk result (λ with. app_of with ≡ with_subcommand (app_of command.entry) sign_app.top) }
{
    let about = "Writes one signed request, or its address, to standard output";
    with_subcommand(alloc, command, "sign", about, &SIGNING)
}

// Adds `s3d serve` to a command line.
fn with_serving<'a>(alloc: Global, command: Command<'a>) -> Result<Command<'a>, AllocError>
    ensures app { IfOk result (λ with. app_of with ≡ with_subcommand (app_of command.entry) serve_app.top) }
{
    let about = "Listens on an address and answers the connections that come";
    with_subcommand(alloc, command, "serve", about, &SERVING)
}

// Adds the subcommand of this name to a command line, with what help says of it and its further arguments.
fn with_subcommand<'a>(
    alloc: Global,
    command: Command<'a>,
    name: &'a str,
    about: &'a str,
    arguments: &[Argument<'a>],
) -> Result<Command<'a>, AllocError>
    ensures app { IfOk result (λ with. app_of with
        ≡ with_subcommand (app_of command.entry) (with_arguments (with_settings (new_app name.entry.now)) arguments.now).top) }
{
    let added = subcommand(alloc, name, about, arguments)?;
    command.subcommand(added)
}

// The command line of a subcommand of this name, with what help says of it and its further arguments.
fn subcommand<'a>(
    alloc: Global,
    name: &'a str,
    about: &'a str,
    arguments: &[Argument<'a>],
) -> Result<Command<'a>, AllocError>
    ensures app { IfOk result (λ command. app_of command ≡ with_arguments (with_settings (new_app name.entry.now)) arguments.now) }
    ensures local { IfOk result (λ command. (fields_of command).has_globals ≡ false) }
{
    let command = Command::new(alloc, name).about(about);
    let command = with_arguments(alloc, command, &SETTINGS)?;
    with_arguments(alloc, command, arguments)
}

// Adds arguments, which subcommands don't inherit.
fn with_arguments<'a>(
    alloc: Global,
    command: Command<'a>,
    arguments: &[Argument<'a>],
) -> Result<Command<'a>, AllocError>
    ensures app { IfOk result (λ with. app_of with ≡ with_arguments (app_of command.entry) arguments.now) }
    ensures local { IfOk result (λ with. (fields_of with).has_globals ≡ (fields_of command.entry).has_globals) }
{
    let mut command = command;
    for argument in arguments {
        command = command.arg(argument.arg(alloc))?;
    }
    Ok(command)
}

impl<'a> Argument<'a> {
    // The argument as `clap` takes it.
    fn arg(&self, alloc: Global) -> Arg<'a>
        ensures rule { rule_of result ≡ rule_of_argument self.now }
        ensures local { result.global ≡ false }
        ensures told { IsTold self.now result }
    {
        let arg = Arg::new(alloc, self.name).help(self.help);
        match self.kind {
            Kind::Optional => arg.value_name(self.value).long(self.name),
            Kind::Required => arg.value_name(self.value).long(self.name).required(true),
            Kind::Defaulted(value) => arg
                .value_name(self.value)
                .long(self.name)
                .default_value(value),
            Kind::Flag => arg.long(self.name).action(ArgAction::SetTrue),
            Kind::Words => arg.value_name(self.value).action(ArgAction::Append),
        }
    }
}
