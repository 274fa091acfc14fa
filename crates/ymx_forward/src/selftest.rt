//! Both ends of a tunnel and an echo server in one process, and three connections through them. One thread makes the
//! connections and sends what became of each, and this one prints it as it comes.
//!
//! Each server owns where it listens and its end of the session, so these close when its thread ends, or can't be made.
//! Then the thread that waits there learns it at once. One that could still wait for a connection that nobody makes is released at the
//! end.

use arrayvec::ArrayString;
use crossbeam_channel::{Receiver, Sender, bounded};
use std::alloc::Global;
use std::fmt::Write;
use std::net::{Ipv4Addr, Net, SocketAddr, SocketAddrV4, TcpListener, TcpStream};
use std::sync::{Arc, Wait};
use std::thread::{Threads, join_mut};
use std::{io, thread};
use ymx_loop::{Service, run_session};
use ymx_model::{Outlet, WriterOutlet, push_all};
use ymx_policy::{Fault, Session, SessionOptions, Text, Users as UserSource, fault_text};
use ymx_sockets::{
    Drain, Host, Peer, Poll, Shared, StartFault, TcpConnection, Users, accept, connect, context_of,
    echo, finish, listen, local_address, new_sink, receive, send,
};

/// How many connections there are.
const CONNECTIONS: u8 = 3;

/// The window of both sessions, in bytes.
const WINDOW: u32 = 262_144;

/// Where a server listens, and the address of that.
#[derive(Drop)]
struct Server {
    listener: TcpListener,
    at: SocketAddrV4,
}

/// What the servers own, and both ends of the connection that carries the session.
#[derive(Drop)]
struct Owned {
    echo: Server,
    local: Server,
    near: TcpStream,
    far: TcpStream,
}

/// Why the lines of the test stop.
#[derive(Clone, Copy)]
enum Stop {
    /// No server could listen.
    Listening,
    /// This connection failed.
    Connection(u8),
    /// The writer failed.
    Writing,
    /// There was no memory.
    Memory,
}

/// Sends three connections through both ends of a tunnel to an echo server, all on 127.0.0.1, and prints a line for
/// each. Whether all that they sent came back: else it logs what failed.
pub fn run_selftest<R: Host + Threads + Sync, W: Outlet + Send, E: Outlet>(
    rt: &R,
    alloc: Global,
    writer: &mut W,
    errors: &mut E,
) -> bool {
    let text = match prepare(rt)
        .ok_or(Stop::Listening)
        .and_then(|owned| run_all(rt, alloc, owned, writer))
    {
        Ok(()) => return true,
        Err(stop) => stop_text(stop),
    };
    let _ = push_all(errors, text.as_str().as_bytes());
    false
}

/// What is logged of a test that stopped.
fn stop_text(stop: Stop) -> Text {
    let mut text = Text::new();
    let _ = match stop {
        Stop::Listening => return fault_text(Fault::CannotListen(any_port())),
        Stop::Memory => return fault_text(Fault::OutOfMemory),
        Stop::Connection(number) => writeln!(text, "ymx: selftest failed: connection {number}"),
        Stop::Writing => writeln!(text, "ymx: writing failed"),
    };
    text
}

/// Runs the three servers and the client, and prints a line for each connection as it ends. Where a thread can't be made the
/// first connection has failed.
fn run_all<R: Host + Threads + Sync, W: Outlet + Send>(
    rt: &R,
    alloc: Global,
    owned: Owned,
    writer: &mut W,
) -> Result<(), Stop> {
    let Ok((sender, receiver)) = bounded::<u8, Global>(alloc, CONNECTIONS as usize) else {
        return Err(Stop::Memory);
    };
    let mut parts = Some((owned, sender));
    let (printed, ()) = join_mut(
        rt,
        &mut || print_all(rt, &receiver, writer),
        &mut || {
            if let Some((owned, sender)) = parts.take() {
                run_servers(rt, alloc, owned, sender);
            }
        },
    );
    printed
}

/// Runs the servers in threads and the client in this one, until all have ended.
fn run_servers<R: Host + Threads + Sync>(
    rt: &R,
    alloc: Global,
    owned: Owned,
    sender: Sender<u8, Global>,
) {
    let Owned {
        echo,
        local,
        near,
        far,
    } = owned;
    let (echo_at, local_at) = (echo.at, local.at);
    thread::scope(thread::scope_env(), rt, move |scope| {
        let has_echo = scope.spawn(move || serve_echoes(echo.listener)).is_ok();
        let has_far = scope
            .spawn(move || run_remote_end(rt, alloc, far, echo_at))
            .is_ok();
        let has_near = scope
            .spawn(move || {
                let _ = run_local_end(rt, alloc, near, local.listener);
            })
            .is_ok();
        if has_echo && has_far && has_near {
            run_client(rt, alloc, local_at, sender);
        }
        release(rt, local_at);
        release(rt, echo_at);
    })
}

/// A port of 127.0.0.1 that the system chooses.
fn any_port() -> SocketAddrV4 {
    SocketAddrV4::new(Ipv4Addr::LOCALHOST, 0)
}

/// Listens at a port that the system chooses.
fn begin_server<R: Host>(rt: &R) -> io::Result<Server> {
    let listener = listen(rt, SocketAddr::V4(any_port()))?;
    let at = local_address(&listener, any_port());
    Ok(Server { listener, at })
}

/// Begins the echo server and that of the client's end, and connects both ends of the session, so that neither has to wait for
/// the other: the system makes that connection before it is accepted.
fn prepare<R: Host>(rt: &R) -> Option<Owned> {
    let echo = begin_server(rt).ok()?;
    let local = begin_server(rt).ok()?;
    let meeting = begin_server(rt).ok()?;
    Some(Owned {
        echo,
        local,
        near: connect(rt, SocketAddr::V4(meeting.at)).ok()?,
        far: accept(&meeting.listener).ok()?,
    })
}

// ---- the lines

/// Prints a line for each connection as it ends. Stops at the first that failed. A result that doesn't come, or that of
/// another connection, counts as a failure of the one awaited.
fn print_all<R: Wait, W: Outlet>(
    rt: &R,
    receiver: &Receiver<u8, Global>,
    writer: &mut W,
) -> Result<(), Stop> {
    for number in 1..=CONNECTIONS {
        match receiver.recv(rt) {
            Ok(echoed) if echoed == number => {}
            _ => return Err(Stop::Connection(number)),
        }
        let mut line = ArrayString::<64>::new();
        let size = size_of(number);
        let _ = writeln!(line, "connection {number}: {size} bytes echoed");
        push_all(writer, line.as_str().as_bytes()).map_err(|_| Stop::Writing)?;
    }
    Ok(())
}

/// How many bytes the connection of this number sends.
fn size_of(number: u8) -> usize {
    match number {
        1 => 0,
        2 => 1,
        _ => 300_000,
    }
}

// ---- the servers

/// Connects to this listener as often as its server accepts, so that none waits any longer. One that has closed refuses it.
fn release<R: Net<Stream = TcpStream>>(rt: &R, address: SocketAddrV4) {
    for _ in 0..CONNECTIONS {
        let _ = connect(rt, SocketAddr::V4(address));
    }
}

/// Sends back what each of three connections sends.
fn serve_echoes(listener: TcpListener) {
    for _ in 0..CONNECTIONS {
        let Ok(socket) = accept(&listener) else {
            return;
        };
        echo(&socket);
    }
}

/// The endpoint of the tunnel at the echo server.
fn run_remote_end<R: Host>(rt: &R, alloc: Global, connection: TcpStream, target: SocketAddrV4) {
    let drain = Arc::new(alloc, Drain::new(alloc));
    if let (Ok(poll), Ok(drain)) = (Poll::new(rt, alloc), drain) {
        let service = Service::Target(target, CONNECTIONS as u32, drain);
        run_one(rt, alloc, connection, (poll, service));
    }
}

/// The endpoint of the tunnel at the client.
fn run_local_end<R: Host>(
    rt: &R,
    alloc: Global,
    connection: TcpStream,
    listener: TcpListener,
) -> Result<(), StartFault> {
    let poll = Poll::new(rt, alloc)?;
    let wanted = UserSource {
        address: any_port(),
        count: Some(CONNECTIONS as u32),
        keeps_listening: false,
    };
    let shared = Shared::new(alloc, wanted.count, 1)?;
    let users = Users::new(listener, wanted, shared, &poll)?;
    run_one(rt, alloc, connection, (poll, Service::Users(users, false)));
    Ok(())
}

/// Runs the only session of this service over this connection. Its log goes nowhere.
fn run_one<R: Host>(
    rt: &R,
    alloc: Global,
    connection: TcpStream,
    (mut poll, mut service): (Poll, Service),
) {
    let Ok(connection) = TcpConnection::of(connection) else {
        return;
    };
    let silent = || WriterOutlet {
        writer: io::sink(),
        failures: 0,
    };
    let (mut nobody, mut nowhere) = (silent(), silent());
    let sink = new_sink(alloc, false, &mut nobody, &mut nowhere);
    let session = Session {
        options: SessionOptions {
            window: WINDOW,
            ping: None,
            keepalive: 0,
            idle: None,
        },
        needs_first_frame: false,
        reconnects: false,
    };
    let (context, peer) = (context_of(rt, alloc, &sink), Peer::of(connection));
    let _ = run_session(context, &mut poll, &mut service, peer, session);
}

// ---- the client

/// Makes the three connections, one after the other, and hands on the number of each whose bytes came back. Stops at the first that
/// fails.
fn run_client<R: Host>(rt: &R, alloc: Global, address: SocketAddrV4, sender: Sender<u8, Global>) {
    for number in 1..=CONNECTIONS {
        if exchange(rt, alloc, address, size_of(number)).is_none()
            || sender.send(rt, number).is_err()
        {
            return;
        }
    }
}

/// Sends so many bytes there, byte k being k modulo 251, ends, and reads what comes back. None unless it is just that.
fn exchange<R: Net<Stream = TcpStream>>(
    rt: &R,
    alloc: Global,
    address: SocketAddrV4,
    size: usize,
) -> Option<()> {
    let mut sent = Vec::with_capacity(alloc, size).ok()?;
    for position in 0..size {
        sent.push((position % 251) as u8).ok()?;
    }
    let socket = connect(rt, SocketAddr::V4(address)).ok()?;
    send(&socket, sent.as_slice()).ok()?;
    finish(&socket).ok()?;
    let mut received = Vec::new(alloc);
    receive(&socket, &mut received).ok()?;
    (received.as_slice() == sent.as_slice()).then_some(())
}
