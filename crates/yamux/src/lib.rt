//! A session over a connection, and its streams, after Go's package.
//!
//! A `Session` owns its connection and the two threads that move its bytes. It is shared by `&` or in an `Arc`, and its calls need
//! no lock. A `Stream` is a value: it may stand in a struct, go to another thread, or be split into a `Reader` and a `Writer`.
//!
//! A dropped stream never looks complete. A stream that was not finished, or not read to its end, is reset by its drop: after an early
//! `?`, a write that failed, or a thread that couldn't be made. A session that is dropped is closed, and its connection is shut.
//!
//! `session` and `stream` have the calls, `halves` the two halves, `connection` what bytes come from and go to, `pumps` the two
//! threads, and `ending` how one ended.
//!
//! The calls say what they booked. With `Off`, which is the default, that is nothing. `with_history` runs a session whose history
//! stands in proofs, beside a program's `Work`, and promises of that history what the work promises (`history`, `work`). There a call
//! may also take the seat of its caller, who has then seen what it did (`callers`).
#![tactic(auto)]

mod callers;
mod connection;
mod ending;
mod error;
mod halves;
mod history;
mod host;
mod pumps;
mod session;
mod stream;
mod work;

pub use connection::{Connection, OwnedInlet, OwnedOutlet, Shut, TcpReader, TcpShut, TcpWriter};
pub use error::Error;
pub use halves::{Reader, Writer, copy};
pub use history::{Worked, with_history};
pub use host::{Host, Runtime};
pub use session::Session;
pub use stream::Stream;
pub use work::Work;
pub use ymx_connect::PumpWhy;
use ymx_header::FIRST_CREDIT;
pub use ymx_hub::Undrained;
pub use ymx_model::{Config, DeviceFault, Inlet, Outlet, Role};
pub use ymx_seats::{Naming, Seat, Witnessed};

/// The configuration of most sessions: a window of 262,144 bytes, and the least own id first.
pub const USUAL_CONFIG: Config = Config {
    window: FIRST_CREDIT,
    first: 0,
};
