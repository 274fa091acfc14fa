//! What the options of a subcommand say.

ghost use Rattle.std.specs.Prelude.{[], ◌≡◌, ◌≢◌, ◌≤◌, codes, map, option_map, unwrap_or, IfErr, MatchOption, MatchResult};
ghost use Rattle.std.specs.Str.Parse.{digits_value};
ghost use Rattle.clap.specs.Words.{all_of, first_of, found_of, one_of, rows_of};
ghost use Rattle.ymx_arguments.specs.CommandLine.{AreNetworksOf, HasClash, IsAddressOf, IsEndpointOf, IsFileOf, IsNumberIn, IsNumberOf, IsNumberOrLeast, IsPeerOf, IsPlanOf, IsStatusOf, IsWrong, ReadsFlag, name_of};

use crate::networks::network_at;
use crate::rows::row_of;
use clap::ArgMatches;
use std::net::SocketAddrV4;
use ymx_policy::{Endpoint, Networks, PeerAddress, Plan, SessionOptions};

/// How many networks are taken.
const MOST_NETWORKS: usize = 8;

/// What is wrong with options, of which clap has found none bad.
#[derive(Clone, Copy)]
pub(crate) enum BadOption<'a> {
    /// This text is no number of the option of this name.
    Number { name: &'a str, text: &'a str },
    /// This text, which the option of this name was given, is no IPv4 address with a port.
    Address { name: &'a str, text: &'a str },
    /// The option of this name was given with another that it can't be given with.
    Clash { name: &'a str, other: &'a str },
    /// Neither `--peer` nor `--bind` was given, of which one must be.
    NoPeer,
    /// This text, which `--from` was given, is no network.
    Network { text: &'a str },
    /// `--from` was given more networks than are taken.
    ManyNetworks,
    /// This address, which `--status` was given, is not of the loopback, and `--status-anywhere` wasn't given.
    FarStatus { text: &'a str },
    /// `--status-anywhere` was given, and `--status` wasn't.
    NoStatus,
}

/// The plan of `local`.
pub(crate) fn local_plan<'a>(found: &ArgMatches<'a>) -> Result<Plan, BadOption<'a>>
    ensures { MatchResult result (λ plan. (name_of plan.endpoint ≡ codes "local") × IsPlanOf (rows_of (found_of found.now)) plan) (IsWrong (rows_of (found_of found.now))) }
{
    let listen = address(found, "listen")?;
    let peer = peer(found)?;
    let endpoint = Endpoint::Local {
        listen,
        count: number(found, "count")?,
        links: number_or_least(found, "links")?,
        names_users: flag(found, "proxy-protocol"),
    };
    plan_of(found, peer, endpoint)
}

/// The plan of `remote`.
pub(crate) fn remote_plan<'a>(found: &ArgMatches<'a>) -> Result<Plan, BadOption<'a>>
    ensures { MatchResult result (λ plan. (name_of plan.endpoint ≡ codes "remote") × IsPlanOf (rows_of (found_of found.now)) plan) (IsWrong (rows_of (found_of found.now))) }
{
    let peer = peer(found)?;
    let endpoint = Endpoint::Remote {
        target: address(found, "target")?,
        workers: number_or_least(found, "workers")?,
        peers: number(found, "peers")?,
    };
    plan_of(found, peer, endpoint)
}

/// The plan of this endpoint, which meets its peer so.
fn plan_of<'a>(
    found: &ArgMatches<'a>,
    peer: PeerAddress,
    endpoint: Endpoint,
) -> Result<Plan, BadOption<'a>>
    requires { IsEndpointOf (rows_of (found_of found.now)) endpoint × IsPeerOf (rows_of (found_of found.now)) peer }
    ensures { MatchResult result (λ plan. (name_of plan.endpoint ≡ name_of endpoint) × IsPlanOf (rows_of (found_of found.now)) plan) (IsWrong (rows_of (found_of found.now))) }
{
    let session = SessionOptions {
        window: number_or_least(found, "window")?,
        ping: number(found, "ping")?,
        keepalive: number_or_least(found, "keepalive")?,
        idle: number(found, "idle")?,
    };
    Ok(Plan {
        endpoint,
        peer,
        session,
        keeps: flag(found, "keep"),
        timeout: number(found, "timeout")?,
        from: networks(found)?,
        status: status(found)?,
        is_verbose: flag(found, "verbose"),
        has_times: flag(found, "times"),
    })
}

/// The file that is named. None where it is `-`, or none is.
pub(crate) fn file<'a>(found: &ArgMatches<'a>) -> Option<&'a str>
    ensures { IsFileOf (rows_of (found_of found.now)) result }
{
    match text_of(found, "file") {
        Some("-") | None => None,
        Some(name) => Some(name),
    }
}

/// The number that the option of this name was given or has by default, or the least of its row.
pub(crate) fn number_or_least<'a>(
    found: &ArgMatches<'a>,
    name: &'a str,
) -> Result<u32, BadOption<'a>>
    ensures read { MatchResult result (IsNumberOrLeast (rows_of (found_of found.now)) name.now) (IsWrong (rows_of (found_of found.now))) }
    ensures met { IfErr result (λ bad. bad ≢ BadOption.NoPeer) }
{
    Ok(number(found, name)?.unwrap_or(row_of(name).least))
}

/// The number that the option of this name was given, if it was given one.
fn number<'a>(found: &ArgMatches<'a>, name: &'a str) -> Result<Option<u32>, BadOption<'a>>
    ensures read { MatchResult result (IsNumberOf (rows_of (found_of found.now)) name.now) (IsWrong (rows_of (found_of found.now))) }
    ensures met { IfErr result (λ bad. bad ≢ BadOption.NoPeer) }
{
    check_apart(found, name)?;
    let Some(text) = text_of(found, name) else {
        return Ok(None);
    };
    let row = row_of(name);
    match number_in(text, row.least, row.most) {
        Some(number) => Ok(Some(number)),
        None => Err(BadOption::Number { name, text }),
    }
}

/// The number that this text spells: one decimal digit or more and nothing else, with a value from `least` to `most`.
pub(crate) fn number_in(text: &str, least: u32, most: u32) -> Option<u32>
    ensures { MatchOption result (IsNumberIn least most text.now → ⊥) (λ number. IsNumberIn least most text.now × (number ≡ digits_value 10 text.now)) }
{
    // `parse` takes a plus sign too
    if text.starts_with('+') {
        return None;
    }
    match text.parse::<u32>() {
        Ok(number) if least <= number && number <= most => Some(number),
        _ => None,
    }
}

/// Whether the option of this name wasn't given with the one that it can't be given with.
fn check_apart<'a>(found: &ArgMatches<'a>, name: &'a str) -> Result<(), BadOption<'a>>
    ensures read { MatchResult result (λ _. HasClash (rows_of (found_of found.now)) name.now → ⊥) (IsWrong (rows_of (found_of found.now))) }
    ensures met { IfErr result (λ bad. bad ≢ BadOption.NoPeer) }
{
    let Some(other) = row_of(name).apart else {
        return Ok(());
    };
    match (text_of(found, name), text_of(found, other)) {
        (Some(_), Some(_)) => Err(BadOption::Clash { name, other }),
        (None, _) | (_, None) => Ok(()),
    }
}

/// The IPv4 address with its port that the option of this name was given, if it takes such a port.
fn address<'a>(found: &ArgMatches<'a>, name: &'a str) -> Result<SocketAddrV4, BadOption<'a>>
    ensures { MatchResult result (IsAddressOf (rows_of (found_of found.now)) name.now) (IsWrong (rows_of (found_of found.now))) }
{
    let Some(text) = text_of(found, name) else {
        return Err(BadOption::Address { name, text: "" });
    };
    match text.parse::<SocketAddrV4>() {
        Ok(address) if row_of(name).least <= u32::from(address.port()) => Ok(address),
        Ok(_) => Err(BadOption::Address { name, text }),
        Err(_) => Err(BadOption::Address { name, text }),
    }
}

/// Where the peer is met: it is connected to at the address of `--peer`, or awaited at that of `--bind`, just one of
/// which must be given.
fn peer<'a>(found: &ArgMatches<'a>) -> Result<PeerAddress, BadOption<'a>>
    ensures { MatchResult result (IsPeerOf (rows_of (found_of found.now))) (IsWrong (rows_of (found_of found.now))) }
{
    check_apart(found, "peer")?;
    match (text_of(found, "peer"), text_of(found, "bind")) {
        (Some(_), _) => Ok(PeerAddress::Connect(address(found, "peer")?)),
        (None, Some(_)) => Ok(PeerAddress::Listen(address(found, "bind")?)),
        (None, None) => Err(BadOption::NoPeer),
    }
}

/// The networks of `--from`, of which there may be 8: the last is repeated where there are fewer, and there is every
/// address where there is none.
fn networks<'a>(found: &ArgMatches<'a>) -> Result<Networks, BadOption<'a>>
    ensures { MatchResult result (AreNetworksOf (rows_of (found_of found.now))) (IsWrong (rows_of (found_of found.now))) }
{
    check_apart(found, "from")?;
    let Some(texts) = found.get_strs("from") else {
        return Ok(Networks::all());
    };
    if texts.len() > MOST_NETWORKS {
        return Err(BadOption::ManyNetworks);
    }
    let mut from = Networks::all();
    for place in 0..MOST_NETWORKS {
        match network_at(texts, place) {
            Ok(network) => from.networks[place] = network,
            Err(text) => return Err(BadOption::Network { text }),
        }
    }
    Ok(from)
}

/// The address that `--status` was given, if it was given one: of the loopback, unless `--status-anywhere` was given too.
fn status<'a>(found: &ArgMatches<'a>) -> Result<Option<SocketAddrV4>, BadOption<'a>>
    ensures { MatchResult result (IsStatusOf (rows_of (found_of found.now))) (IsWrong (rows_of (found_of found.now))) }
{
    let is_anywhere = flag(found, "status-anywhere");
    match text_of(found, "status") {
        None if is_anywhere => Err(BadOption::NoStatus),
        None => Ok(None),
        Some(text) => {
            let address = address(found, "status")?;
            if is_anywhere || address.ip().is_loopback() {
                return Ok(Some(address));
            }
            Err(BadOption::FarStatus { text })
        }
    }
}

/// The text that the option of this name was given, or its default.
fn text_of<'a>(found: &ArgMatches<'a>, name: &str) -> Option<&'a str>
    ensures { option_map (λ text. text.now) result ≡ first_of name.now (rows_of (found_of found.now)) }
{
    found.get_str(name)
}

/// Whether the flag of this name was given.
fn flag(found: &ArgMatches<'_>, name: &str) -> bool
    ensures { ReadsFlag (rows_of (found_of found.now)) name.now result }
{
    found.get_flag(name)
}
