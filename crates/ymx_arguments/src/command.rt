//! The command line as clap knows it, made of the rows of the options.

ghost use Rattle.std.specs.Prelude.{◌≡◌, false, IfOk};
ghost use Rattle.clap.specs.Words.{app_of, new_app, rule_of, shape_of};
ghost use Rattle.clap.specs.declared.builder.command.Command.TheViews.{out-Command as fields_of};
ghost use Rattle.ymx_arguments.specs.CommandLine.{action_of, named_rule, row_rule, shape_named, top_app, with_row, ymx_app};
ghost use Rattle.ymx_arguments.specs.Rows.{stated};

use crate::rows::{Kind, Row, rows};
use clap::{Arg, ArgAction, Command};
use std::alloc::{AllocError, Global};

/// The version of the program, which `--version` prints.
const VERSION: &str = "0.3.0";

/// The command line of the program.
pub(crate) fn command<'a>(alloc: Global) -> Result<Command<'a>, AllocError>
    ensures { IfOk result (λ command. app_of command ≡ ymx_app) }
{
    top(alloc)
        .subcommand(subcommand(alloc, "frames")?)?
        .subcommand(subcommand(alloc, "script")?)?
        .subcommand(subcommand(alloc, "local")?)?
        .subcommand(subcommand(alloc, "remote")?)?
        .subcommand(subcommand(alloc, "selftest")?)
}

/// The program by itself.
fn top<'a>(alloc: Global) -> Command<'a>
    ensures { app_of result ≡ top_app }
{
    Command::new(alloc, "ymx")
        .about("Stream multiplexing by the yamux protocol, version 0")
        .after_help(HELP)
        .version(VERSION)
        .propagate_version(true)
        .subcommand_required(true)
}

/// The subcommand of this name, with its options.
pub(crate) fn subcommand<'a>(alloc: Global, name: &'a str) -> Result<Command<'a>, AllocError>
    ensures { IfOk result (λ command. (shape_of command ≡ shape_named name.entry.now) × ((fields_of command).has_globals ≡ false)) }
{
    let mut command = titled(alloc, name);
    for row in rows() {
        command = with_row(alloc, command, name, row)?;
    }
    Ok(command)
}

/// The subcommand of this name with the option of this row, if it is one of its.
fn with_row<'a>(
    alloc: Global,
    command: Command<'a>,
    name: &str,
    row: &Row,
) -> Result<Command<'a>, AllocError>
    ensures { IfOk result (λ r. (app_of r ≡ with_row name.now (app_of command.entry) (stated row.now))
        × ((fields_of r).has_globals ≡ (fields_of command.entry).has_globals)) }
{
    if !row.owner.has(name) {
        return Ok(command);
    }
    command.arg(argument(alloc, row)?)
}

/// The subcommand of this name, with no options.
fn titled<'a>(alloc: Global, name: &'a str) -> Command<'a>
    ensures { (app_of result ≡ new_app name.entry.now) × ((fields_of result).has_globals ≡ false) }
{
    let command = Command::new(alloc, name);
    match name {
        "frames" => command
            .about("Print the yamux frames of a file or of standard input, a line each")
            .after_help(FRAMES_HELP),
        "script" => command
            .about("Run steps of two sessions joined by pipes, of a file or of standard input")
            .after_help(SCRIPT_HELP),
        "local" => command
            .about("Forward local connections through a session")
            .override_usage(LOCAL_USAGE)
            .after_help(LOCAL_HELP),
        "remote" => command
            .about("Connect the streams of a session to a target")
            .override_usage(REMOTE_USAGE)
            .after_help(REMOTE_HELP),
        _ => command.about("Run both ends and an echo server in one process"),
    }
}

/// The argument of this row. Clap takes any text for it: its reader says what is wrong with it.
fn argument<'a>(alloc: Global, row: &Row) -> Result<Arg<'a>, AllocError>
    ensures { IfOk result (λ arg. (rule_of arg ≡ row_rule (stated row.now)) × (arg.global ≡ false)) }
{
    let argument = Arg::new(alloc, row.name)
        .aliases(row.old_names)?
        .value_names(row.value)
        .default_values(row.default)
        .action(action_of(row.kind))
        .required(row.is_needed)
        .help(row.help);
    Ok(named(argument, row))
}

/// This argument with the names of this row.
fn named<'a>(argument: Arg<'a>, row: &Row) -> Arg<'a>
    ensures { (rule_of result ≡ named_rule (stated row.now) (rule_of argument.entry)) × (result.global ≡ argument.entry.global) }
{
    match (row.kind, row.letter) {
        (Kind::Word, _) => argument,
        (_, Some(letter)) => argument.long(row.name).short(letter),
        (_, None) => argument.long(row.name),
    }
}

/// What clap does where an option of this kind is given.
fn action_of(kind: Kind) -> ArgAction
    ensures { result ≡ action_of kind }
{
    match kind {
        Kind::Flag => ArgAction::SetTrue,
        Kind::Word | Kind::Text => ArgAction::Set,
        Kind::Texts => ArgAction::Append,
    }
}

/// What the help says at its end.
const HELP: &str = "Examples:
  ymx frames examples/hello.yamux
  ymx script examples/stream.script
  ymx remote --bind 192.0.2.7:4000 --target 127.0.0.1:80
  ymx local --listen 127.0.0.1:8080 --peer 192.0.2.7:4000

The exit status is 0 if all went well, 1 at a fault, and 2 for a bad command line.";

/// What the help of `frames` says at its end.
const FRAMES_HELP: &str =
    "A line has the type of the frame (data, window, ping or away), its flags in hexadecimal, its
stream id, its length field and, for data, the first 16 bytes of the payload in hexadecimal:
  data flags=0000 id=1 len=5 68656c6c6f

The last line is `fault B<n> at <offset>` at a bad frame (B1: the version isn't 0, B2: the type is
above 3, B5: the payload is longer than the limit; the offset is in bytes), or `rest <n>` where the
input ends n bytes into a frame. The exit status is then 1.

Example:
  ymx frames --limit 1048576 capture.yamux";

/// What the help of `script` says at its end.
const SCRIPT_HELP: &str =
    "A line is a step, and its answer is printed as a line. A is the client, B the server; AB is the pipe
that carries A's bytes, BA the other. S is A or B, D is AB or BA, n and id are decimal numbers, bytes
are pairs of hexadecimal digits, or `-` for none. A line that begins with `#` is a comment.

Settings, before every other line:
  first S n            the side's first stream id
  window S n           the side's window, from 262144 to 16777216 bytes
Calls of a side:
  S open               S openwith bytes     S accept
  S write id bytes     S read id n          S finish id
  S fill id n          S skip id n          S reset id      S forget id
  S ping               S ponged n           S away          S close
Bytes on their way:
  emit S n             the side puts at most n bytes onto its pipe
  deliver D n          the pipe's first n bytes are fed to the other side
  stop D, end D        the pipe is cut; its receiver learns that the bytes have ended
  show D, due S, quiet what is on its way, whether a side has something to emit, whether nothing moves

The last line is `error line <k>` at a line that is none of these. The exit status is then 1.

Example:
  A open               opened 1
  A write 1 6869       took 2
  emit A 100           emitted 26
  deliver AB 100       fed 26
  B accept             accepted 1
  B read 1 10          bytes 2 6869";

/// How `local` is called.
const LOCAL_USAGE: &str =
    "ymx local [OPTIONS] --listen <ADDRESS> <--peer <ADDRESS>|--bind <ADDRESS>>";

/// How `remote` is called.
const REMOTE_USAGE: &str =
    "ymx remote [OPTIONS] --target <ADDRESS> <--peer <ADDRESS>|--bind <ADDRESS>>";

/// What the help of `local` says at its end.
const LOCAL_HELP: &str =
    "It connects to the peer, and then listens. An address is an IPv4 address and a port.
With --bind, in place of --peer, it listens for its peer first, and takes one.
With --keep it goes on once the connection to its peer has ended.
With --links it spreads its users over so many connections; its peer needs --keep or --peers.

Example:
  ymx local --listen 127.0.0.1:8080 --peer 192.0.2.7:4000";

/// What the help of `remote` says at its end.
const REMOTE_HELP: &str =
    "It accepts one connection, and ends with it. An address is an IPv4 address and a port.
With --peer, in place of --bind, it connects to its peer, as behind a firewall.
With --keep it goes on with others, and never ends by itself.

Example:
  ymx remote --bind 192.0.2.7:4000 --target 127.0.0.1:80";
