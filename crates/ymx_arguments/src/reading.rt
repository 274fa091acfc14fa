//! What the words of a command line ask for.

ghost use Rattle.std.specs.Prelude.{◌≡◌, map, IfErr, IfOk, MatchResult};
ghost use Rattle.clap.specs.Words.{found_of, kind_of, rows_of, subcommand_of, subcommand_rows_of};
ghost use Rattle.ymx_arguments.specs.CommandLine.{IsClap, IsFaultFor, IsFaultOf, kind_for, IsMistakeFor, IsMistakeOf, IsTaskFor, IsTaskOf, LacksMemory, ymx_app};

use crate::command::{command, subcommand};
use crate::options::{BadOption, file, local_plan, number_or_least, remote_plan};
use crate::rows::row_of;
use clap::error::ErrorKind;
use clap::{ArgMatches, Error};
use std::alloc::{AllocError, Global};
use std::convert::AsStr;
use std::fmt::Write;
use ymx_policy::Plan;

/// What a command line asks for.
#[derive(Clone, Copy)]
pub enum Task<'a> {
    /// The frames of a file or, with no name, of standard input. `limit` is the longest payload of a Data frame that is
    /// accepted, 262,144 to 16,777,216 bytes.
    Frames { limit: u32, file: Option<&'a str> },
    /// The script of a file or, with no name, of standard input, to be played.
    Script { file: Option<&'a str> },
    /// An endpoint of a tunnel, to be run by this plan.
    Tunnel(Plan),
    /// The test of a tunnel, in one process.
    Selftest,
}

/// Why the words of a command line name no task.
#[derive(Drop)]
pub enum CommandFault<'a> {
    /// They ask for the help or the version, they have a mistake, or there was no memory to read them: its kind says
    /// which, and its text is what to print.
    Clap(Error),
    /// The option of this name was given this text, which is no IPv4 address with a port.
    BadAddress(&'a str, &'a str),
}

impl From<AllocError> for CommandFault<'_> {
    ghost from_gives = { λ _ fault. LacksMemory fault };

    fn from(error: AllocError) -> Self {
        CommandFault::Clap(Error::from(error))
    }
}

impl From<Error> for CommandFault<'_> {
    ghost from_gives = { λ error fault. IsClap (kind_of error) fault };

    fn from(error: Error) -> Self {
        CommandFault::Clap(error)
    }
}

/// Reads the words of a command line, the first of which is the program's name.
pub fn parse<'a, S: AsStr>(alloc: Global, words: &'a [S]) -> Result<Task<'a>, CommandFault<'a>>
    // The task is what the words ask for, with what their options say.
    ensures task { IfOk result (IsTaskOf (subcommand_of ymx_app (map S.text words.entry.now))) }
    // A fault is one that the words have, or there was no memory to read them.
    ensures fault { IfErr result (IsFaultOf (map S.text words.entry.now)) }
{
    let matches = command(alloc)?.try_get_matches_from(words)?;
    match task_of(&matches) {
        Ok(task) => Ok(task),
        Err(bad) => {
            let name = matches.subcommand().map_or("", |(name, _)| name);
            Err(fault_for(alloc, name, bad)?)
        }
    }
}

/// What the matches of a command line ask for.
fn task_of<'a>(matches: &ArgMatches<'a>) -> Result<Task<'a>, BadOption<'a>>
    ensures { MatchResult result (IsTaskOf (subcommand_rows_of matches.now)) (IsMistakeOf (subcommand_rows_of matches.now)) }
{
    match matches.subcommand() {
        Some((name, found)) => task_for(name, found),
        None => Ok(Task::Selftest),
    }
}

/// What the subcommand of this name asks for with these options.
fn task_for<'a>(name: &str, found: &ArgMatches<'a>) -> Result<Task<'a>, BadOption<'a>>
    ensures { MatchResult result (IsTaskFor name.now (rows_of (found_of found.now))) (IsMistakeFor name.now (rows_of (found_of found.now))) }
{
    match name {
        "frames" => Ok(Task::Frames {
            limit: number_or_least(found, "limit")?,
            file: file(found),
        }),
        "script" => Ok(Task::Script { file: file(found) }),
        "local" => Ok(Task::Tunnel(local_plan(found)?)),
        "remote" => Ok(Task::Tunnel(remote_plan(found)?)),
        _ => Ok(Task::Selftest),
    }
}

/// Says what is wrong with the options of this subcommand: an address in the program's own words, and all else in the form
/// of clap's mistakes, with how the subcommand is called.
fn fault_for<'a>(
    alloc: Global,
    name: &str,
    bad: BadOption<'a>,
) -> Result<CommandFault<'a>, AllocError>
    ensures { IfOk result (IsFaultFor bad.entry) }
{
    if let BadOption::Address { name, text } = bad {
        return Ok(CommandFault::BadAddress(name, text));
    }
    let called = format!(in alloc; "ymx {name}")?;
    let mut met = subcommand(alloc, name)?.bin_name(called.as_str())?;
    let message = message_of(alloc, bad)?;
    Ok(CommandFault::Clap(met.error(kind_for(bad), message.as_str())?))
}

/// Which of clap's mistakes this is.
fn kind_for(bad: BadOption<'_>) -> ErrorKind
    ensures { result ≡ kind_for bad.entry }
{
    match bad {
        BadOption::Clash { .. } => ErrorKind::ArgumentConflict,
        BadOption::NoPeer | BadOption::NoStatus => ErrorKind::MissingRequiredArgument,
        BadOption::ManyNetworks => ErrorKind::TooManyValues,
        BadOption::Number { .. }
        | BadOption::Address { .. }
        | BadOption::Network { .. }
        | BadOption::FarStatus { .. } => ErrorKind::ValueValidation,
    }
}

/// The text of this mistake.
fn message_of(alloc: Global, bad: BadOption<'_>) -> Result<String, AllocError> {
    let mut said = String::new(alloc);
    match bad {
        BadOption::Number { name, text } => {
            let row = row_of(name);
            let (value, least, most) = (row.value_name(), row.least, row.most);
            write!(
                said,
                "invalid value '{text}' for '--{name} <{value}>': a number is decimal digits alone, from {least} to {most}"
            )?
        }
        BadOption::Address { name, text } => write!(said, "bad address '{text}' for '--{name}'")?,
        BadOption::Clash { name, other } => {
            let value = row_of(name).value_name();
            write!(
                said,
                "the argument '--{name} <{value}>' cannot be used with '--{other} <ADDRESS>'"
            )?
        }
        BadOption::NoPeer => said.push_str(
            "the following required arguments were not provided:\n  <--peer <ADDRESS>|--bind <ADDRESS>>",
        )?,
        BadOption::Network { text } => write!(
            said,
            "invalid value '{text}' for '--from <NETWORK>': it wants an IPv4 address, or one with '/' and a number from 0 to 32, as 192.0.2.0/24"
        )?,
        BadOption::ManyNetworks => said.push_str(
            "the argument '--from <NETWORK>' can be given 8 times at most",
        )?,
        BadOption::FarStatus { text } => write!(
            said,
            "invalid value '{text}' for '--status <ADDRESS>': it wants an address of the loopback, as 127.0.0.1:9100, unless '--status-anywhere' is given"
        )?,
        BadOption::NoStatus => said.push_str(
            "the argument '--status-anywhere' is only for '--status <ADDRESS>'",
        )?,
    }
    Ok(said)
}
