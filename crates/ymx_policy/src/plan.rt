//! What follows from the command line.

ghost use Rattle.std.specs.Prelude.{◌≡◌};
ghost use Rattle.ymx_policy.specs.Plans.{address_of, connect_limit, keepalive_of, link_count_of, mode_of, of_link, reconnects_of, terms_of};

use crate::commands::{Keepalive, Session, Users};
use crate::options::{Endpoint, Networks, PeerAddress, Plan};
use std::net::SocketAddrV4;

/// How many peers a `remote` with `--keep` serves at once by default.
const PEERS: u32 = 16;

/// The default connect timeout in seconds, where others wait for the connect.
const TIMEOUT: u32 = 10;

/// After how many unanswered probes a connection fails.
const PROBES: u32 = 4;

/// Which endpoint it is, and whether it connects to its peer or awaits it.
#[derive(Clone, Copy)]
pub enum Mode {
    /// `ymx local --peer`
    LocalDials,
    /// `ymx local --bind`
    LocalAwaits,
    /// `ymx remote --peer`
    RemoteDials,
    /// `ymx remote --bind`
    RemoteAwaits,
    /// `ymx remote --bind` with `--keep` or `--peers`: it admits peers to its links
    RemoteAdmits,
    /// One of these links, to which peers are handed
    RemoteServes,
}

/// What follows from a plan: all that an endpoint decides by.
#[derive(Clone, Copy)]
pub struct Terms {
    pub mode: Mode,
    /// Where the peer is met.
    pub peer: SocketAddrV4,
    /// From where it may connect.
    pub from: Networks,
    /// Connect timeout in seconds. None is the system's own.
    pub limit: Option<u32>,
    /// Where users come from.
    pub users: Users,
    /// What its sessions are like.
    pub session: Session,
    /// How many sessions it may have at once, each on a link of its own.
    pub link_count: u32,
}

impl PeerAddress {
    /// The address itself.
    fn address(self) -> SocketAddrV4
        ensures { result ≡ address_of self }
    {
        match self {
            PeerAddress::Connect(address) | PeerAddress::Listen(address) => address,
        }
    }
}

/// TCP keepalive: the first probe after so many seconds of silence, and then one after each quarter of them. None for 0.
pub fn keepalive_of(seconds: u32) -> Option<Keepalive>
    ensures { result ≡ keepalive_of seconds }
{
    if seconds == 0 {
        return None;
    }
    Some(Keepalive {
        idle: seconds,
        interval: (seconds / 4).max(1),
        probes: PROBES,
    })
}

/// The connect timeout, where others wait for the connect or not.
fn connect_limit(is_awaited: bool, timeout: Option<u32>) -> Option<u32>
    ensures { result ≡ connect_limit is_awaited timeout }
{
    timeout.or(is_awaited.then_some(TIMEOUT))
}

impl Plan {
    /// What follows of it.
    pub fn terms(self) -> Terms
        ensures { result ≡ terms_of self }
    {
        let (keeps, peer) = (self.keeps, self.peer.address());
        let (mode, link_count) = self.mode_and_link_count();
        let (address, count, has_links) = match self.endpoint {
            Endpoint::Local {
                listen,
                count,
                links,
                ..
            } => (listen, count, links > 1),
            Endpoint::Remote { .. } => (peer, None, false),
        };
        let has_users = matches!(self.endpoint, Endpoint::Local { .. });
        let is_awaited = keeps || has_links;
        Terms {
            mode,
            peer,
            from: self.from,
            limit: connect_limit(is_awaited, self.timeout),
            users: Users {
                address,
                count,
                keeps_listening: keeps,
            },
            session: Session {
                options: self.session,
                needs_first_frame: self.session.ping.is_some() || has_users && is_awaited,
                reconnects: self.reconnects(),
            },
            link_count,
        }
    }

    /// Whether another session follows one that is lost.
    fn reconnects(self) -> bool
        ensures { result ≡ reconnects_of self.endpoint self.keeps }
    {
        match self.endpoint {
            Endpoint::Local { .. } => self.keeps,
            Endpoint::Remote { peers, .. } => self.keeps || peers.is_some(),
        }
    }

    /// Which endpoint it is, and how many sessions it may have at once.
    fn mode_and_link_count(self) -> (Mode, u32)
        ensures { result ≡ (mode_of self.endpoint self.peer self.keeps, link_count_of self.endpoint self.peer self.keeps) }
    {
        match (self.endpoint, self.peer) {
            (Endpoint::Local { links, .. }, PeerAddress::Connect(_)) => (Mode::LocalDials, links),
            (Endpoint::Local { .. }, PeerAddress::Listen(_)) => (Mode::LocalAwaits, 1),
            (Endpoint::Remote { .. }, PeerAddress::Connect(_)) => (Mode::RemoteDials, 1),
            (Endpoint::Remote { .. }, PeerAddress::Listen(_)) if !self.reconnects() => {
                (Mode::RemoteAwaits, 1)
            }
            (Endpoint::Remote { peers, .. }, PeerAddress::Listen(_)) => {
                (Mode::RemoteAdmits, peers.unwrap_or(PEERS))
            }
        }
    }
}

impl Terms {
    /// Those of each of its links.
    pub fn of_link(self) -> Terms
        ensures { result ≡ of_link self }
    {
        let mode = match self.mode {
            Mode::RemoteAdmits => Mode::RemoteServes,
            mode => mode,
        };
        Terms { mode, ..self }
    }
}
