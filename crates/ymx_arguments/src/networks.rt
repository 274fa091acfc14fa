//! The networks from which a peer may connect, as texts name them.

ghost use Rattle.std.specs.Prelude.{◌≡◌, ◌-◌, length, map, min, slice_get, MatchOption, MatchResult};
ghost use Rattle.ymx_arguments.specs.CommandLine.{IsIn, IsNetwork, IsNoNetwork, StandsFor};

use crate::options::number_in;
use std::net::Ipv4Addr;
use ymx_policy::Network;

/// The network of the text in this place, or of the last one where there are fewer: every address where there is none.
/// An error is a text that names no network.
pub(crate) fn network_at<'a>(texts: &[&'a str], place: usize) -> Result<Network, &'a str>
    ensures { MatchResult result (StandsFor (slice_get (map (λ text. text.now) texts.now) (min place (length texts.now - 1))))
        (λ text. IsIn (map (λ text. text.now) texts.now) text.now × IsNoNetwork text.now) }
{
    let last = texts.len().saturating_sub(1);
    let Some(text) = texts.get(place.min(last)) else {
        return Ok(Network {
            address: Ipv4Addr::UNSPECIFIED,
            bits: 0,
        });
    };
    match network_in(text) {
        Some(network) => Ok(network),
        None => Err(text),
    }
}

/// The network that this text names: an IPv4 address, or one with `/` and how many of its first bits count, 0 to 32.
fn network_in(text: &str) -> Option<Network>
    ensures { MatchOption result (IsNoNetwork text.now) (IsNetwork text.now) }
{
    match text.split_once('/') {
        None => match text.parse::<Ipv4Addr>() {
            Ok(address) => Some(Network { address, bits: 32 }),
            Err(_) => None,
        },
        Some((address, bits)) => match (address.parse::<Ipv4Addr>(), number_in(bits, 0, 32)) {
            (Ok(address), Some(bits)) => Some(Network {
                address,
                bits: bits as u8,
            }),
            _ => None,
        },
    }
}
