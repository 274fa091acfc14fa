//! The laws of two tunnels that are joined: the tunnel's promise. Each public function is a law: it does nothing, and its
//! contract is the theorem.

ghost use Rattle.std.specs.Prelude.{ℕ, ◌≡◌, ◌++◌, ◌∷◌, List, [], None, Some, true, false};
ghost use Rattle.ymx_model.specs.session.Events.{Event};
ghost use Rattle.ymx_model.specs.session.Sessions.{Session, is_running};
ghost use Rattle.ymx_model.specs.session.Emissions.{in_turn};
ghost use Rattle.ymx_model.specs.session.Histories.{Replays};
ghost use Rattle.ymx_machine.specs.shared.Events.{Reply};
ghost use Rattle.ymx_session.specs.Replies.{stream_fault};
ghost use Rattle.ymx_session.specs.Streams.{waiting};
ghost use Rattle.ymx_engine.specs.Devices.{Seen};
ghost use Rattle.ymx_engine.specs.Events.{lacks_memory};
ghost use Rattle.ymx_engine.specs.Runs.{Runs};
ghost use Rattle.ymx_engine.specs.Tunnels.{Tunnel};
ghost use Rattle.ymx_engine.specs.Lives.{Trades, Change, Lives, sinces};
ghost use Rattle.ymx_joined.specs.Tunnels.{Turn, entries, AreOneTunnelRun};
ghost use Rattle.ymx_joined.specs.Carried.{Carries, HadOne, IsPassedOn, TunnelsCarry};
ghost use Rattle.ymx_joined.specs.Quiet.{HasCome, NextRead, AllHasCome, IsAllPassedOn, AllIsDelivered};

/// Two tunnels, a client's and a server's, over two pipes in memory, are one run of the queue machine. They make any calls,
/// in any order; their devices and the pipes answer as they like, and may fail. What one's wire took and the other's has not
/// given waits in the pipe. Then all that happened at both has a joint order, so that the replies are the answers of a run of
/// these two sessions, and the queue machine has a run that goes alike. What happened at each is a history of its session, as
/// the audit reads one.
pub fn tunnels_are_one_run()
    ensures one_run { (turns : List Turn) → AreOneTunnelRun turns }
    ensures history { (old new : Tunnel) → (runs : Runs old new) → Replays in_turn (entries runs.moves.events) old.engine.session new.engine.session }
{}

/// Two tunnels, a client's and a server's, over two pipes in memory. They make any calls, in any order; their devices and
/// the pipes answer as they like, and may fail. Then what each stream gave at one end is a beginning of what it took at the
/// other, and all of it once its end was read there. At each end the stream's own devices gave what it took, and took what
/// it gave.
pub fn tunnels_carry()
    ensures { (turns : List Turn) → TunnelsCarry turns }
{}

/// What the device at one end of a stream takes is a beginning of what the device at the other end gave, unless a write of
/// that was refused for lack of memory. Where its end was passed on, it is all that the other had to give.
pub fn devices_get_what_was_given()
    ensures { (id : ℕ) (at_giver at_taker : List (Event × Reply)) (giver giver_new taker taker_new : Seen) →
        Trades id at_giver giver giver_new → Trades id at_taker taker taker_new → Carries id at_giver at_taker → lacks_memory id at_giver ≡ false →
        IsPassedOn giver giver_new taker taker_new }
{}

/// The same of all events of two tunnels, where one device and no other was joined to the stream at each end: so it is with
/// every stream whose `Life` has one device, which is still there or has left.
pub fn one_device_gets_what_the_other_gave()
    ensures passed_on { (id : ℕ) (at_giver at_taker : List (Event × Reply)) (giver giver_last taker taker_last : Seen) →
        HadOne id at_giver giver giver_last → HadOne id at_taker taker taker_last → Carries id at_giver at_taker → lacks_memory id at_giver ≡ false →
        IsPassedOn giver giver_last taker taker_last }
    ensures stays { (id : ℕ) (joined : Change) (rest : List (Event × Reply)) (now : Seen) → Lives id (joined ∷ []) rest None (Some now) → HadOne id (sinces (joined ∷ []) ++ rest) joined.seen now }
    ensures left { (id : ℕ) (joined left : Change) (rest : List (Event × Reply)) → Lives id (joined ∷ left ∷ []) rest None None → HadOne id (sinces (joined ∷ left ∷ []) ++ rest) joined.seen left.seen }
{}

/// Nothing sticks between two tunnels. They are a client's and a server's, over two pipes in memory, and made any calls, in
/// any order. The direction from one to the other is quiet where nothing of the one is due, no byte waits for its wire, in the
/// pipe, or to be fed to the other, and both sessions run. Then all that a stream took at the one was given at the other, or
/// waits there to be given, if the session there has the stream; and its end has come there exactly if it was finished.
/// Where both directions are quiet, both sessions have each stream that both were given and neither left. The next read gives the
/// first of what waits, or the end where nothing does.
pub fn quiet_tunnels_have_carried_all()
    ensures carried { (turns : List Turn) → AllHasCome turns }
    ensures next_read { (id : ℕ) (s : Session) → stream_fault id s ≡ None → is_running s.status ≡ true → NextRead id s }
{}

/// Then the device at one end of a stream has taken all that the device at the other end gave, but for the bytes that wait
/// at its session. One device and no other was joined to the stream at each end, and no write of what was given was refused
/// for lack of memory.
pub fn quiet_devices_have_all_but_what_waits()
    ensures { (id : ℕ) (at_giver at_taker : List (Event × Reply)) (giver giver_last taker taker_last : Seen) (reader : Session) →
        HadOne id at_giver giver giver_last → HadOne id at_taker taker taker_last → HasCome id at_giver at_taker reader → lacks_memory id at_giver ≡ false →
        IsAllPassedOn giver giver_last taker taker_last (waiting id reader) }
{}

/// Two tunnels that have no work have delivered all. They are a client's and a server's, over two pipes in memory; they made
/// any calls, in any order. Now neither has work, though its wire may take bytes, and the pipes are empty. If both sessions run
/// the tunnels are quiet. Where an end has a stream, and its connection is there, all that the stream took at the other end was
/// given here, and it was not finished there; or the device here may take none now, as it says itself, or as it was told of the
/// end. Nor does a stream take bytes then that its device may have. Where an end has a stream no more, as it was reset, its
/// device may take none now, and gives none either: its direction to the peer isn't open, also where its connection was still being
/// made. So it is of each connection of a session that is over. (Nobody is forgotten: what each call says, `Runs`, has it.)
pub fn tunnels_at_rest_have_delivered()
    ensures { (turns : List Turn) → AllIsDelivered turns }
{}
