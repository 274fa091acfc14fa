//! The type `Tunnel`: how it is made, what events say of it, and the turns of its connections.

ghost use Rattle.std.specs.Prelude.{ℕ, [], ◌≡◌, ◌⊎◌, ◌≤◌, ◌<◌, true, false, length, IfOk, IfSome, IfNone, None, Some, Contains};
ghost use Rattle.ymx_machine.specs.declared.types.Call.TheVariants as call;
ghost use Rattle.ymx_machine.specs.declared.types.Reply.TheVariants as reply;
ghost use Rattle.ymx_model.specs.declared.types.Event.TheVariants as event;
ghost use Rattle.ymx_model.specs.session.Emissions.{in_turn};
ghost use Rattle.ymx_model.specs.session.Histories.{Gives};
ghost use Rattle.ymx_model.specs.session.Sessions.{is_running};
ghost use Rattle.ymx_law_session.specs.Limits.{IsWithin};
ghost use Rattle.ymx_session.specs.Replies.{done_or, pinged_or, ponged_or};
ghost use Rattle.ymx_engine.specs.Devices.{IsNoted, IsEnded, IsShut, one_frame};
ghost use Rattle.ymx_engine.specs.Engines.{KeepsWire};
ghost use Rattle.ymx_engine.specs.Runs.{Runs, Stays, Rests};
ghost use Rattle.ymx_engine.specs.Served.{Serving, ServingBut};
ghost use Rattle.ymx_engine.specs.Turns.{Connection as ConnectionValue, connection_of, IsIdle, Notes, KeepsConnections, KeepsOthers};
ghost use Rattle.ymx_engine.specs.Work.{ServesFirst, HasItsTurn, share, takes_more};

use crate::block::Block;
use crate::buffers::{Buffers, FRAME, FRAMES, TURN};
use crate::connections::Connections;
use crate::device::{Device, Readiness};
use std::alloc::Global;
use std::marker::Model;
use ymx_memory::RefusedAllocation;
use ymx_model::CallFault;
use ymx_session::{Session, Touched};

/// A connection that had a turn.
#[derive(Clone, Copy)]
pub struct Served {
    /// Its stream.
    pub id: u32,
    /// How many bytes its device gave in that turn.
    pub gave: usize,
}

/// A session, the wire that carries it, and the device of each of its streams.
///
/// It owns them: so no caller can lend one stream's device to another, or the wire to a stream. Each call says what it
/// did as one fact, `Runs`, which holds over any number of calls.
///
/// It is driven by readiness. What an event says is noted by `note_wire` and `note_connection`, and moves nothing. Then a round
/// is `read_wire`, `serve_next` as long as it serves somebody, and `flush`. Each of these makes a bounded number of calls
/// of devices, none of which waits. `has_work` says whether a further round may move something with no event.
///
/// A contract sees the session, the bytes that it has emitted and the wire has not taken, and those that the wire gave
/// and the session has not taken; what is seen of the wire and of each device; and who waits for a turn.
#[derive(Drop)]
pub struct Tunnel<D: Device + Drop, W: Device + Drop> {
    pub(crate) session: Session,
    pub(crate) touched: Touched,
    pub(crate) connections: Connections<D>,
    pub(crate) outgoing: Block,
    pub(crate) incoming: Block,
    pub(crate) buffer: Vec<u8>,
    pub(crate) wire: W,
    /// The session heard that no more bytes come from the wire.
    pub(crate) is_wire_over: bool,
    /// The wire takes bytes slowly.
    pub(crate) is_slow: bool,
    /// How many streams of the peer's were rejected for lack of memory.
    pub(crate) no_memory: u64,
}

impl<D: Device + Drop, W: Device + Drop> Model for Tunnel<D, W> {
    ghost use Rattle.ymx_engine.specs.Tunnels.{Tunnel as TunnelValue};
    ghost use Rattle.std.specs.Prelude.{◌≤◌, length};
    ghost use Rattle.ymx_engine.specs.Devices.{one_read};

    ghost Value = { TunnelValue };

    ghost view = { λ t. record { engine = record { session = t.session; outgoing = t.outgoing; incoming = t.incoming }; wire = W.seen t.wire; is_wire_over = t.is_wire_over; is_slow = t.is_slow; connections = t.connections; no_memory = t.no_memory } };

    ghost invariant = { λ t. one_read ≤ length t.buffer.items };
}

impl<D: Device + Drop, W: Device + Drop> Tunnel<D, W> {
    /// A tunnel of this session over this wire, which has moved nothing and has no connection. There may be no memory for its
    /// buffers: then the session and the wire are dropped.
    pub fn new(alloc: Global, session: Session, wire: W) -> Result<Tunnel<D, W>, RefusedAllocation>
        ensures engine { IfOk result (λ made. made.engine ≡ record { session = session; outgoing = []; incoming = [] }) }
        ensures wire { IfOk result (λ made. (made.wire ≡ W.seen wire) × (made.is_wire_over ≡ false)) }
        ensures none { IfOk result (λ made. (made.connections.by_id ≡ []) × IsIdle made.connections × (made.connections.held ≡ []) × (made.connections.missed ≡ false)) }
        ensures memory { IfOk result (λ made. made.no_memory ≡ 0) }
        // Nobody is forgotten.
        ensures serves { IsWithin session → IfOk result Serving }
    {
        let memory = Buffers::new(alloc)?;
        Ok(Tunnel {
            session,
            touched: memory.touched,
            connections: Connections::new(alloc),
            outgoing: memory.outgoing,
            incoming: memory.incoming,
            buffer: memory.buffer,
            wire,
            is_wire_over: false,
            is_slow: false,
            no_memory: 0,
        })
    }

    /// Lets go of the connections, and gives the wire back.
    pub fn into_wire(self) -> W
        ensures { W.seen result ≡ self.wire }
    {
        self.wire
    }

    // ---- what events say

    /// An event says this of the wire.
    pub fn note_wire(&mut self, ready: Readiness)
        ensures runs { Runs self.old self.new }
        ensures memory { self.new.no_memory ≡ self.old.no_memory }
        ensures noted { IsNoted ready self.old.wire self.new.wire }
        ensures engine { self.new.engine ≡ self.old.engine }
        ensures over { self.new.is_wire_over ≡ self.old.is_wire_over }
        ensures connections { self.new.connections ≡ self.old.connections }
    {
        self.wire.note_event(ready);
    }

    /// From now on the wire takes bytes slowly, or not: while it does, each turn gives one frame at most, so that bytes wait at their
    /// own connections and not before those of others.
    pub fn note_pace(&mut self, is_slow: bool)
        ensures runs { Runs self.old self.new }
        ensures noted { self.new ≡ record self.old { is_slow = is_slow } }
    {
        self.is_slow = is_slow;
    }

    /// An event says this of the device of a stream, which has a turn then. Nothing happens where it has none.
    pub fn note_connection(&mut self, id: u32, ready: Readiness)
        ensures runs { Runs self.old self.new }
        ensures stays { Stays self.old self.new }
        ensures noted { (was : ConnectionValue) → connection_of id self.old.connections ≡ Some was → Notes id ready was self.old.connections self.new.connections }
        ensures none { connection_of id self.old.connections ≡ None → self.new ≡ self.old }
        ensures memory { self.new.no_memory ≡ self.old.no_memory }
        ensures engine { self.new.engine ≡ self.old.engine }
        ensures wire { self.new.wire ≡ self.old.wire }
        ensures over { self.new.is_wire_over ≡ self.old.is_wire_over }
    {
        self.connections.note(id, ready);
    }

    // ---- turns

    /// Serves the connection whose turn it is, with its own device: a write to it, and then reads from it: of one
    /// frame while the wire is slow, or another waits that moves little, and else twice, of 131,072 bytes each. It isn't read while
    /// bytes wait that the wire doesn't take, or many wait. `None` where none waits for a turn.
    pub fn serve_next(&mut self) -> Option<Served>
        ensures runs { Runs self.old self.new }
        ensures stays { Stays self.old self.new }
        ensures rests { Rests self.old self.new }
        ensures none { IfNone result (IsIdle self.old.connections) }
        // The first of the queue whose turn it is has its turn, and each other that waits comes nearer.
        ensures turn { IfSome result (λ served. ServesFirst served.id served.gave self.old self.new) }
        // While another waits that moves little, it gives one frame at most.
        ensures among { IfSome result (λ served. (id : ℕ) → Contains self.old.connections.fresh id → (id ≡ served.id) ⊎ (served.gave ≤ one_frame)) }
        // So it does while the wire is slow.
        ensures paced { IfSome result (λ served. self.old.is_slow ≡ true → served.gave ≤ one_frame) }
        ensures memory { self.new.no_memory ≡ self.old.no_memory }
    {
        let id = self.connections.next()?;
        let gave = self.serve(id);
        Some(Served { id, gave })
    }

    /// The connection of this stream has its turn. How many bytes its device gave.
    fn serve(&mut self, id: u32) -> usize
        ensures served { (was : ConnectionValue) → connection_of id self.old.connections ≡ Some was → HasItsTurn id result was self.old.connections self.old self.new }
        ensures none { connection_of id self.old.connections ≡ None → (self.new ≡ self.old) × (result ≡ 0) }
        ensures others { KeepsOthers id self.old.connections self.new.connections }
        ensures memory { self.new.no_memory ≡ self.old.no_memory }
        ensures incoming { self.new.engine.incoming ≡ self.old.engine.incoming }
        ensures wire { self.new.wire ≡ self.old.wire }
        ensures over { self.new.is_wire_over ≡ self.old.is_wire_over }
        ensures serves { ServingBut id self.old → Serving self.new }
    {
        let most = self.share();
        let buffer = self.buffer.as_mut_slice();
        self.connections
            .serve(id, &mut self.session, buffer, &mut self.outgoing, most)
    }

    /// How many bytes the connection that has its turn may give.
    fn share(&self) -> usize
        ensures share { result ≡ share self.now.connections self.now }
    {
        if !self.takes_more() {
            return 0;
        }
        if self.is_slow || self.connections.has_fresh() {
            return FRAME;
        }
        TURN
    }

    /// Whether connections may be read: not while bytes wait that the wire doesn't take, nor while many wait.
    fn takes_more(&self) -> bool
        ensures { result ≡ takes_more self.now }
    {
        let waiting = self.outgoing.waiting().len();
        self.is_wire_over || waiting == 0 || (self.wire.may_push() && waiting < FRAMES)
    }

    // ---- signs of life, go away, and the wire's end

    /// Pings the peer, and returns the ping's number (ping). The refusals are those of `Session::ping`,
    /// and change nothing.
    pub fn ping(&mut self) -> Result<u32, CallFault>
        ensures runs { Runs self.old self.new }
        ensures stays { Stays self.old self.new }
        ensures rests { Rests self.old self.new }
        ensures event { Gives in_turn self.old.engine.session (event.Call call.Ping) (pinged_or result) self.new.engine.session }
        ensures rest { self.new ≡ record self.old { engine = record self.old.engine { session = self.new.engine.session } } }
    {
        self.session.ping()
    }

    /// Whether the answer to the pending ping of this number is back. If so it is collected (ping). The refusals are those
    /// of `Session::ponged`, and change nothing.
    pub fn ponged(&mut self, number: u32) -> Result<bool, CallFault>
        ensures runs { Runs self.old self.new }
        ensures stays { Stays self.old self.new }
        ensures rests { Rests self.old self.new }
        ensures event { Gives in_turn self.old.engine.session (event.Call (call.Ponged number)) (ponged_or result) self.new.engine.session }
        ensures rest { self.new ≡ record self.old { engine = record self.old.engine { session = self.new.engine.session } } }
    {
        self.session.ponged(number)
    }

    /// Takes no more streams of the peer's, and tells it so: a Go Away is due, and streams that it opens from now on are rejected
    /// (go away). Those that are there go on, those among them that wait to be accepted too. A second call changes nothing. The
    /// refusals are those of `Session::go_away`, and change nothing.
    pub fn go_away(&mut self) -> Result<(), CallFault>
        ensures runs { Runs self.old self.new }
        ensures stays { Stays self.old self.new }
        ensures rests { Rests self.old self.new }
        ensures event { Gives in_turn self.old.engine.session (event.Call call.GoAway) (done_or result) self.new.engine.session }
        ensures rest { self.new ≡ record self.old { engine = record self.old.engine { session = self.new.engine.session } } }
    {
        self.session.go_away()
    }

    /// The peer counts as gone: the wire is shut both ways, and the session learns of its end.
    pub fn give_up_wire(&mut self)
        ensures runs { Runs self.old self.new }
        ensures shut { IsShut self.old.wire self.new.wire }
        ensures event { Gives in_turn self.old.engine.session event.FeedEnd reply.Done self.new.engine.session }
        ensures lost { is_running self.new.engine.session.status ≡ false }
        ensures over { self.new.is_wire_over ≡ true }
        ensures memory { self.new.no_memory ≡ self.old.no_memory }
        ensures bytes { KeepsWire self.old.engine self.new.engine }
        ensures connections { KeepsConnections self.old.connections self.new.connections }
    {
        self.wire.shut();
        self.lose();
    }

    /// Nothing more goes over the wire.
    pub fn end_wire(&mut self)
        ensures runs { Runs self.old self.new }
        ensures rests { Rests self.old self.new }
        ensures ended { IsEnded self.old.wire self.new.wire }
        ensures memory { self.new.no_memory ≡ self.old.no_memory }
        ensures engine { self.new.engine ≡ self.old.engine }
        ensures over { self.new.is_wire_over ≡ self.old.is_wire_over }
        ensures connections { self.new.connections ≡ self.old.connections }
    {
        self.wire.end();
    }
}
