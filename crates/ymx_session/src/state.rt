//! All that a session remembers.

ghost use Rattle.std.specs.Prelude.{◌≡◌, ◌≤◌, IfOk};
ghost use Rattle.ymx_machine.specs.shared.Limits.{first_credit, widest_window};
ghost use Rattle.ymx_model.specs.session.Sessions.{new_session, breaks, is_lost};

use crate::arriving::Arriving;
use crate::frame_buffer::FrameBuffer;
use std::alloc::Global;
use std::marker::Model;
use ymx_control::{Answers, Away, Backlog, Pings};
use ymx_header::Fault;
use ymx_memory::RefusedAllocation;
use ymx_model::{Role, Status};
use ymx_table::Table;

/// All that a session remembers, whether or not it is within its limits.
#[derive(Drop)]
pub(crate) struct State {
    pub(crate) alloc: Global,
    pub(crate) role: Role,
    pub(crate) status: Status,
    pub(crate) next: u32,
    pub(crate) table: Table,
    pub(crate) offered: Backlog,
    pub(crate) pings: Pings,
    pub(crate) away: Away,
    pub(crate) error_due: bool,
    pub(crate) answers: Answers,
    pub(crate) outgoing: FrameBuffer,
    pub(crate) arriving: Arriving,
}

impl Model for State {
    ghost use Rattle.std.specs.Prelude.{◌≡◌};
    ghost use Rattle.ymx_model.specs.session.Sessions.{Session};

    ghost Value = { Session };

    ghost view = { λ s. record { role = s.role; status = s.status; next = s.next; table = s.table; offered = s.offered; pings = s.pings; away = s.away; error_due = s.error_due; answers = s.answers; outgoing = s.outgoing; incoming = s.arriving.incoming } };

    ghost invariant = { λ s. s.arriving.limit ≡ s.table.window };
}

impl State {
    /// A session that has done nothing, with the memory for all that it keeps beside its streams.
    pub(crate) fn new(
        alloc: Global,
        role: Role,
        window: u32,
        first: u32,
    ) -> Result<State, RefusedAllocation>
        requires narrowest { first_credit ≤ window }
        requires widest { window ≤ widest_window }
        ensures { IfOk result (λ state. state ≡ new_session role window first) }
    {
        let offered = Backlog::new(alloc)?;
        let pings = Pings::new(alloc)?;
        let answers = Answers::new(alloc)?;
        let outgoing = FrameBuffer::new(alloc)?;
        let table = Table::new(alloc, window)?;
        Ok(State {
            alloc,
            role,
            status: Status::Running,
            next: first,
            table,
            offered,
            pings,
            away: Away::new(),
            error_due: false,
            answers,
            outgoing,
            arriving: Arriving::new(window),
        })
    }

    /// The session breaks.
    pub(crate) fn breaks(&mut self, fault: Fault)
        ensures { self.new ≡ breaks fault self.old }
    {
        self.status = Status::Broken(fault);
        self.error_due = !matches!(
            fault,
            Fault::PeerSawProtocolError | Fault::PeerSawInternalError
        );
    }

    /// Whether no more of the peer's bytes come: they have ended, or the session broke.
    pub(crate) fn is_lost(&self) -> bool
        ensures { result ≡ is_lost self.now.status }
    {
        matches!(self.status, Status::Lost | Status::Broken(_))
    }
}
