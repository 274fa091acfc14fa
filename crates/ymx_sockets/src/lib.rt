//! What an endpoint of the tunnel stands on: the system's sockets, listeners for users and peers, the log and the
//! counters, and the page over HTTP. No session is here.
//!
//! Whatever the system answers, nothing aborts. Which bytes its sockets carry, no contract sees.
#![tactic(auto)]

use std::net::{Net, TcpListener, TcpStream};
use std::sync::Wait;
use std::time::Clock;

mod accepting;
mod clock;
mod drain;
mod fault;
mod logging;
mod peer;
mod proxy;
mod source;
mod status;
mod stream;
mod system;
mod users;

pub use accepting::{Acceptor, Incoming, PeerAcceptor};
pub use clock::{GLANCE, has_passed, shorter, time_of};
pub use drain::Drain;
pub use fault::StartFault;
pub use logging::{Context, Sink, context_of, new_sink};
pub use peer::Peer;
pub use proxy::ProxyHeader;
pub use source::Source;
pub use status::Page;
pub use stream::Stream;
pub use system::{
    NoEvents, Poll, SocketEvent, TcpConnection, accept, begin_connect, connect, echo, events_of,
    finish, listen, local_address, prepare, receive, send,
};
pub use users::{Shared, Users};

/// What an endpoint runs on: TCP, the clock, and waiting.
pub trait Host: Net<Stream = TcpStream, Listener = TcpListener> + Clock + Wait {}

impl<R: Net<Stream = TcpStream, Listener = TcpListener> + Clock + Wait> Host for R {}
