//! What the command line asks of the two endpoints of a tunnel.

ghost use Rattle.std.specs.Prelude.{◌≡◌};
ghost use Rattle.std.specs.List.{list_any};
ghost use Rattle.ymx_policy.specs.Networks.{admits, all, has, has_all};

use std::net::{Ipv4Addr, SocketAddrV4};

/// Where an endpoint meets its peer.
#[derive(Clone, Copy)]
pub enum PeerAddress {
    /// It connects to the peer at this address.
    Connect(SocketAddrV4),
    /// It listens at this address for the peer.
    Listen(SocketAddrV4),
}

/// A network: the addresses whose first bits are those of this one.
#[derive(Clone, Copy)]
pub struct Network {
    /// One of its addresses.
    pub address: Ipv4Addr,
    /// How many bits its addresses have in common, 0 to 32.
    pub bits: u8,
}

/// The most networks that --from may name.
pub const NETWORKS: usize = 8;

/// From where peers may connect: these networks, in any order, one of which may stand here several times.
#[derive(Clone, Copy)]
pub struct Networks {
    pub networks: [Network; NETWORKS],
}

impl Network {
    /// Whether this address is one of it.
    fn has(self, address: Ipv4Addr) -> bool
        ensures { result ≡ has self address }
    {
        let others = 32u32.saturating_sub(self.bits as u32);
        (address.to_bits() as u64) >> others == (self.address.to_bits() as u64) >> others
    }
}

impl Networks {
    /// Whether a peer at this address is admitted. Where it isn't known, only where all are.
    pub fn admits(&self, from: Option<SocketAddrV4>) -> bool
        ensures { result ≡ admits self.now from }
    {
        match from {
            Some(address) => any_has(&self.networks, *address.ip()),
            None => any_is_all(&self.networks),
        }
    }

    /// From everywhere.
    pub fn all() -> Networks
        ensures { result ≡ all }
    {
        let all = Network {
            address: Ipv4Addr::UNSPECIFIED,
            bits: 0,
        };
        Networks {
            networks: [all; NETWORKS],
        }
    }
}

/// Whether this address is one of these networks.
fn any_has(networks: &[Network], address: Ipv4Addr) -> bool
    ensures { result ≡ list_any (λ network. has network address) networks.now }
{
    networks.iter().any(|network| network.has(address))
}

/// Whether one of these networks has all addresses.
fn any_is_all(networks: &[Network]) -> bool
    ensures { result ≡ list_any has_all networks.now }
{
    networks.iter().any(|network| network.bits == 0)
}

/// What the command line asks of an endpoint of a tunnel.
#[derive(Clone, Copy)]
pub struct Plan {
    pub endpoint: Endpoint,
    /// Where it meets the peer of its session.
    pub peer: PeerAddress,
    /// What each of its sessions is like.
    pub session: SessionOptions,
    /// Whether it reconnects after the link is lost: a `local` that connects does so for the next user.
    pub keeps: bool,
    /// Connect timeout in seconds, 1 to 3,600. None if the command line names none.
    pub timeout: Option<u32>,
    /// From where its peer may connect, where it listens for it.
    pub from: Networks,
    /// Where it answers requests for what it counts. None if nowhere.
    pub status: Option<SocketAddrV4>,
    /// Whether it logs listening addresses, peers and connections.
    pub is_verbose: bool,
    /// Whether each line on standard error begins with the time.
    pub has_times: bool,
}

/// Which endpoint it is, with the options of that one alone.
#[derive(Clone, Copy)]
pub enum Endpoint {
    /// `ymx local`: each connection becomes a stream.
    Local {
        /// Where connections come from.
        listen: SocketAddrV4,
        /// How many connections are forwarded, or as many as come.
        count: Option<u32>,
        /// How many connections to its peer it keeps, 1 to 64: one where it listens for its peer.
        links: u32,
        /// Whether each stream begins with a PROXY protocol v1 header, which names its user.
        names_users: bool,
    },
    /// `ymx remote`: each stream becomes a connection to the target.
    Remote {
        /// Where connections go to.
        target: SocketAddrV4,
        /// How many streams are served at once, 1 to 1,024.
        workers: u32,
        /// How many peers it serves at once, 1 to 256. None if the command line names none.
        peers: Option<u32>,
    },
}

/// What a session is like.
#[derive(Clone, Copy)]
pub struct SessionOptions {
    /// How many bytes of a stream may be unread here, 262,144 to 16,777,216.
    pub window: u32,
    /// After how many seconds of silence the peer is pinged, 1 to 3,600. None if it never is.
    pub ping: Option<u32>,
    /// TCP keepalive: after how many seconds of silence the system sends the first probe, 1 to 3,600. 0 if it
    /// never does.
    pub keepalive: u32,
    /// After how many seconds in which no byte moved a connection is aborted, 1 to 86,400. None if never.
    pub idle: Option<u32>,
}
