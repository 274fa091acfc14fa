//! What holds of each end at each moment, whatever happens: in the words of a user.

ghost use Rattle.std.specs.Prelude.{◌≡◌, ◌≢◌, ◌⊎◌, ◌<◌, ◌≤◌, ◌||◌, ℕ, List, [], ◌∷◌, Bool, true, false, Option, Some, None, is_some, length, map};
ghost use Rattle.std.specs.declared.net.socket_addr.SocketAddrV4.{SocketAddrV4 as Address};
ghost use Rattle.ymx_policy.specs.Machine.{silence};
ghost use Rattle.ymx_policy.specs.Past.{IsPast, command_after, faults, reasons, with};
ghost use Rattle.ymx_policy.specs.Plans.{address_of, waits_for_first_frame, has_links, keepalive_of, link_count_of, terms_of};
ghost use Rattle.ymx_policy.specs.Laws.{GoneFrom, NamesAddress, all_came_last, ends_well, failed_tries, has_opened, has_peer, is_clean, is_explained, is_local, is_port_last, is_logged_there, last_action, last_peer, pause_of, peers_of, retries_allowed, status_of, logs_departure, logged_by};
ghost use Rattle.ymx_policy.specs.declared.options.Plan.{Plan as Given};
ghost use Rattle.ymx_policy.specs.declared.plan.Terms.{Terms as GivenTerms};
ghost use Rattle.ymx_policy.specs.declared.commands.Command.{Command as Issued};
ghost use Rattle.ymx_policy.specs.declared.commands.Outcome.{Outcome as Observed};
ghost use Rattle.ymx_policy.specs.declared.commands.Dial.{Dial as Dialed};
ghost use Rattle.ymx_policy.specs.declared.commands.Session.{Session as Served};
ghost use Rattle.ymx_policy.specs.declared.commands.Users.{Users as Awaited};
ghost use Rattle.ymx_policy.specs.declared.commands.Peers.{Peers as Awaiting};
ghost use Rattle.ymx_policy.specs.declared.commands.SessionEnd.{SessionEnd as Ended};
ghost use Rattle.ymx_policy.specs.declared.reason.Reason.{Reason as System};

use crate::commands::{Action, Fault, Named, Notice, Outcome};
use crate::options::{Endpoint, PeerAddress};
use crate::plan::Mode;

/// The exit status is 0 exactly where no fault was logged, and else 1. It is 0 only after a session in which nothing went
/// wrong, or where all users have come that were to.
pub fn statuses()
    ensures reported { (t : GivenTerms) (past : List (Issued × Observed)) (n : ℕ) → IsPast t past → (command_after t past).action ≡ Action.End n → n ≡ status_of (with (command_after t past).words.fault (faults past)) }
    ensures well { (t : GivenTerms) (past : List (Issued × Observed)) → IsPast t past → (command_after t past).action ≡ Action.End 0 → ends_well past ≡ true }
{}

/// Without `--keep` no more than one fault is logged.
pub fn one_fault()
    ensures { (t : GivenTerms) (past : List (Issued × Observed)) → t.session.reconnects ≡ false → IsPast t past → length (with (command_after t past).words.fault (faults past)) ≤ 1 }
{}

/// A `remote` that connects to its peer never ends with `--keep`, but where it is to begin no more sessions.
pub fn connects_forever()
    ensures { (t : GivenTerms) (past : List (Issued × Observed)) (n : ℕ) → t.mode ≡ Mode.RemoteDials → t.session.reconnects ≡ true → all_came_last past ≡ false → IsPast t past → (command_after t past).action ≢ Action.End n }
{}

/// Every session is with a peer that has come for it.
pub fn serves_peers()
    ensures { (t : GivenTerms) (past : List (Issued × Observed)) (session : Served) → IsPast t past → (command_after t past).action ≡ Action.Serve session → has_peer past ≡ true }
{}

/// A mistake at the port for users disturbs no peer: with `--keep` or `--bind` a `local` listens there before it connects to its
/// peer, or awaits it. Without them it connects first.
pub fn own_port_first()
    ensures kept { (t : GivenTerms) (past : List (Issued × Observed)) (dial : Dialed) → t.mode ≡ Mode.LocalDials → t.session.reconnects ≡ true → IsPast t past → (command_after t past).action ≡ Action.Connect dial → has_opened past ≡ true }
    ensures bound { (t : GivenTerms) (past : List (Issued × Observed)) → t.mode ≡ Mode.LocalAwaits → IsPast t past → (command_after t past).action ≡ Action.AwaitPeer → has_opened past ≡ true }
    ensures served { (t : GivenTerms) (past : List (Issued × Observed)) (session : Served) → is_local t.mode ≡ true → IsPast t past → (command_after t past).action ≡ Action.Serve session → has_opened past ≡ true }
    ensures called { (t : GivenTerms) (past : List (Issued × Observed)) (users : Awaited) → t.mode ≡ Mode.LocalDials → t.session.reconnects ≡ false → IsPast t past → (command_after t past).action ≡ Action.ListenForUsers users → has_peer past ≡ true }
{}

/// With `--keep` an endpoint ends only where all have come that were to, or for what happened at a port of its own, and
/// never after a connect or a session. After a session one that awaits its peer awaits the next.
pub fn keeps_on()
    ensures ends { (t : GivenTerms) (past : List (Issued × Observed)) (n : ℕ) → t.session.reconnects ≡ true → all_came_last past ≡ false → IsPast t past → (command_after t past).action ≡ Action.End n → is_port_last past ≡ true }
    ensures awaits { (t : GivenTerms) (past : List (Issued × Observed)) (session : Served) (outcome : Observed) → (t.mode ≡ Mode.LocalAwaits) ⊎ (t.mode ≡ Mode.RemoteAwaits) → t.session.reconnects ≡ true → IsPast t past → (command_after t past).action ≡ Action.Serve session → (command_after t ((command_after t past, outcome) ∷ past)).action ≡ Action.AwaitPeer }
{}

/// Each fault has its reason in the outcome just before: the rule that was broken, the address. It names the address
/// of users, or that of the peer.
pub fn faults_have_reasons()
    ensures reason { (t : GivenTerms) (past : List (Issued × Observed)) → IsPast t past → is_explained (command_after t past).words.fault past ≡ true }
    ensures users { (t : GivenTerms) (past : List (Issued × Observed)) (users : Awaited) (address : Address) → IsPast t past → (command_after t past).action ≡ Action.ListenForUsers users → (command_after t ((command_after t past, Outcome.Failed None) ∷ past)).words.fault ≡ Some (Fault.CannotListen t.users.address) }
    ensures place { (t : GivenTerms) (past : List (Issued × Observed)) → IsPast t past → NamesAddress t.peer (peers_of t past) t.users.address (command_after t past).words.fault }
{}

/// Just before a fault its reason is logged, with or without `-v`: why the system refuses the port, the connect or the user,
/// at the address that the option names. A session logs itself which rule was broken. No other reason is logged, so an endpoint
/// that ends well without `-v` logs nothing.
pub fn reasons_are_logged()
    ensures users { (t : GivenTerms) (past : List (Issued × Observed)) (users : Awaited) (why : System) → IsPast t past → (command_after t past).action ≡ Action.ListenForUsers users → (command_after t ((command_after t past, Outcome.Failed (Some why)) ∷ past)).words.reason ≡ Some (Notice.Refused (Named.Listen t.users.address) why) }
    ensures called { (t : GivenTerms) (past : List (Issued × Observed)) (dial : Dialed) (why : System) → t.session.reconnects ≡ false → IsPast t past → (command_after t past).action ≡ Action.Connect dial → (command_after t ((command_after t past, Outcome.Failed (Some why)) ∷ past)).words.reason ≡ Some (Notice.Refused (Named.Peer t.peer) why) }
    ensures accepted { (t : GivenTerms) (past : List (Issued × Observed)) (session : Served) (how : Ended) (why : System) → IsPast t past → (command_after t past).action ≡ Action.Serve session → how.accept_failed ≡ true → how.accept_reason ≡ Some why → (command_after t ((command_after t past, Outcome.SessionEnded how) ∷ past)).words.reason ≡ Some (Notice.Refused (Named.Listen t.users.address) why) }
    ensures alone { (t : GivenTerms) (past : List (Issued × Observed)) → IsPast t past → (command_after t past).words.fault ≡ None → (command_after t past).words.reason ≡ None }
    ensures none { (t : GivenTerms) (past : List (Issued × Observed)) → IsPast t past → (command_after t past).action ≡ Action.End 0 → with (command_after t past).words.reason (reasons past) ≡ [] }
{}

/// A `remote` that connects with `--keep` pauses for 1 second, and then for 2, 4, 8, 16 and 30, as many tries have failed in a
/// row.
pub fn pauses()
    ensures long { (t : GivenTerms) (past : List (Issued × Observed)) (n : ℕ) → t.mode ≡ Mode.RemoteDials → t.session.reconnects ≡ true → IsPast t past → (command_after t past).action ≡ Action.Pause n → n ≡ pause_of (failed_tries past) }
    ensures backs_off { (t : GivenTerms) (past : List (Issued × Observed)) (dial : Dialed) → t.mode ≡ Mode.RemoteDials → t.session.reconnects ≡ true → IsPast t past → (command_after t past).action ≡ Action.Connect dial → 0 < failed_tries past → last_action past ≡ Some (Action.Pause (pause_of (failed_tries past))) }
    ensures row { map pause_of (1 ∷ 2 ∷ 3 ∷ 4 ∷ 5 ∷ 6 ∷ 7 ∷ []) ≡ 1 ∷ 2 ∷ 4 ∷ 8 ∷ 16 ∷ 30 ∷ 30 ∷ [] }
{}

/// An endpoint that is to begin no more sessions, while it connects to its peer, awaits it or admits peers, or is to listen, ends at
/// once: with status 0 where no fault was logged. It logs nothing of that.
pub fn ends_where_all_came()
    ensures called { (t : GivenTerms) (past : List (Issued × Observed)) (dial : Dialed) → IsPast t past → (command_after t past).action ≡ Action.Connect dial → (command_after t ((command_after t past, Outcome.AllCame) ∷ past)) ≡ record { words = silence; action = Action.End (status_of (with (command_after t past).words.fault (faults past))) } }
    ensures awaited { (t : GivenTerms) (past : List (Issued × Observed)) → IsPast t past → (command_after t past).action ≡ Action.AwaitPeer → (command_after t ((command_after t past, Outcome.AllCame) ∷ past)) ≡ record { words = silence; action = Action.End (status_of (with (command_after t past).words.fault (faults past))) } }
    ensures peers { (t : GivenTerms) (past : List (Issued × Observed)) (peers : Awaiting) → IsPast t past → (command_after t past).action ≡ Action.ListenForPeer peers → (command_after t ((command_after t past, Outcome.AllCame) ∷ past)) ≡ record { words = silence; action = Action.End (status_of (with (command_after t past).words.fault (faults past))) } }
    ensures users { (t : GivenTerms) (past : List (Issued × Observed)) (users : Awaited) → IsPast t past → (command_after t past).action ≡ Action.ListenForUsers users → (command_after t ((command_after t past, Outcome.AllCame) ∷ past)) ≡ record { words = silence; action = Action.End (status_of (with (command_after t past).words.fault (faults past))) } }
    ensures admits { (t : GivenTerms) (past : List (Issued × Observed)) → IsPast t past → (command_after t past).action ≡ Action.AdmitPeers → (command_after t ((command_after t past, Outcome.AllCame) ∷ past)) ≡ record { words = silence; action = Action.End (status_of (with (command_after t past).words.fault (faults past))) } }
{}

/// With `--keep` a `local` that connects to its peer rejects no user after a session with a first frame: users wait for the
/// next one. After one whose peer sent Go Away ten connects may fail before they are rejected, with a pause of a second after each.
pub fn users_wait_for_the_next_session()
    ensures waits { (t : GivenTerms) (past : List (Issued × Observed)) (session : Served) (how : Ended) → t.mode ≡ Mode.LocalDials → t.session.reconnects ≡ true → IsPast t past → (command_after t past).action ≡ Action.Serve session → (how.is_arrival_logged ≡ true) ⊎ (how.is_peer_away ≡ true) → (command_after t ((command_after t past, Outcome.SessionEnded how) ∷ past)).action ≡ Action.AwaitUser }
    ensures again { (t : GivenTerms) (past : List (Issued × Observed)) (dial : Dialed) (outcome : Observed) → t.mode ≢ Mode.RemoteDials → t.session.reconnects ≡ true → IsPast t past → (command_after t past).action ≡ Action.Connect dial → outcome ≢ Outcome.PeerCame → outcome ≢ Outcome.AllCame → 0 < retries_allowed past → (command_after t ((command_after t past, outcome) ∷ past)).action ≡ Action.Pause 1 }
    ensures calls { (t : GivenTerms) (past : List (Issued × Observed)) (outcome : Observed) (n : ℕ) → IsPast t past → (command_after t past).action ≡ Action.Pause n → (command_after t ((command_after t past, outcome) ∷ past)).action ≡ Action.Connect (record { address = t.peer; limit = t.limit }) }
{}

/// Where something went wrong in a session, a fault is logged at once. If the peer can't be reached, for any reason, waiting
/// users are rejected once no retry is left; so they are after a session without a first frame.
pub fn each_fault_is_logged()
    ensures reported { (t : GivenTerms) (past : List (Issued × Observed)) (session : Served) (how : Ended) → IsPast t past → (command_after t past).action ≡ Action.Serve session → is_clean how ≡ false → is_some (command_after t ((command_after t past, Outcome.SessionEnded how) ∷ past)).words.fault ≡ true }
    ensures unreached { (t : GivenTerms) (past : List (Issued × Observed)) (dial : Dialed) (outcome : Observed) → t.mode ≢ Mode.RemoteDials → t.session.reconnects ≡ true → IsPast t past → (command_after t past).action ≡ Action.Connect dial → outcome ≢ Outcome.PeerCame → outcome ≢ Outcome.AllCame → retries_allowed past ≡ 0 → (command_after t ((command_after t past, outcome) ∷ past)).action ≡ Action.RejectUsers }
    ensures silent { (t : GivenTerms) (past : List (Issued × Observed)) (session : Served) (how : Ended) → t.mode ≡ Mode.LocalDials → t.session.reconnects ≡ true → IsPast t past → (command_after t past).action ≡ Action.Serve session → how.is_arrival_logged ≡ false → how.is_peer_away ≡ false → (command_after t ((command_after t past, Outcome.SessionEnded how) ∷ past)).action ≡ Action.RejectUsers }
{}

/// What is done is what the plan says: the connect goes to the peer's address, with the plan's timeout, users come to
/// theirs, each session is the plan's, and a peer is awaited at its address, and from where it may call.
pub fn follows_the_plan()
    ensures calls { (t : GivenTerms) (past : List (Issued × Observed)) (dial : Dialed) → IsPast t past → (command_after t past).action ≡ Action.Connect dial → (dial.address ≡ t.peer) × (dial.limit ≡ t.limit) }
    ensures listens { (t : GivenTerms) (past : List (Issued × Observed)) (users : Awaited) → IsPast t past → (command_after t past).action ≡ Action.ListenForUsers users → users ≡ t.users }
    ensures serves { (t : GivenTerms) (past : List (Issued × Observed)) (session : Served) → IsPast t past → (command_after t past).action ≡ Action.Serve session → session ≡ t.session }
    ensures awaits { (t : GivenTerms) (past : List (Issued × Observed)) (peers : Awaiting) → IsPast t past → (command_after t past).action ≡ Action.ListenForPeer peers → (peers.address ≡ t.peer) × (peers.from ≡ t.from) }
{}

/// Each option does what it says.
pub fn options_arrive()
    ensures peer { (p : Given) → (terms_of p).peer ≡ address_of p.peer }
    ensures session { (p : Given) → (terms_of p).session.options ≡ p.session }
    ensures from { (p : Given) → (terms_of p).from ≡ p.from }
    ensures timeout { (p : Given) (n : ℕ) → p.timeout ≡ Some n → (terms_of p).limit ≡ Some n }
    ensures awaited { (p : Given) → p.timeout ≡ None → (p.keeps ≡ true) ⊎ (has_links p.endpoint ≡ true) → (terms_of p).limit ≡ Some 10 }
    ensures unlimited { (p : Given) → p.timeout ≡ None → p.keeps ≡ false → has_links p.endpoint ≡ false → (terms_of p).limit ≡ None }
    ensures sounded { (p : Given) → (terms_of p).session.needs_first_frame ≡ (is_some p.session.ping || waits_for_first_frame p.endpoint p.keeps) }
    ensures local { (p : Given) (listen : Address) (count : Option ℕ) (links : ℕ) (names : Bool) → p.endpoint ≡ Endpoint.Local listen count links names →
        ((terms_of p).users ≡ record { address = listen; count = count; keeps_listening = p.keeps }) × ((terms_of p).session.reconnects ≡ p.keeps) }
    ensures remote { (p : Given) (target : Address) (workers : ℕ) (peers : Option ℕ) → p.endpoint ≡ Endpoint.Remote target workers peers → (terms_of p).session.reconnects ≡ (p.keeps || is_some peers) }
    ensures links { (p : Given) → (terms_of p).link_count ≡ link_count_of p.endpoint p.peer p.keeps }
{}

/// With `--keepalive 60` the system asks after 60 seconds of silence, and then every 15 seconds. It asks four times, and
/// waits for a second at least. With 0 it never asks.
pub fn keepalives()
    ensures never { keepalive_of 0 ≡ None }
    ensures asks { keepalive_of 60 ≡ Some (record { idle = 60; interval = 15; probes = 4 }) }
    ensures least { keepalive_of 1 ≡ Some (record { idle = 1; interval = 1; probes = 4 }) }
    ensures most { keepalive_of 3600 ≡ Some (record { idle = 3600; interval = 900; probes = 4 }) }
{}

/// Each peer whose arrival was logged has its departure logged right after the session. A `local` that connects logs of none
/// else that it has gone, but that it has before its first frame; the others log it of each. Its address is where the last
/// session's peer was. Each address where it listens is logged.
pub fn lines()
    ensures gone { (t : GivenTerms) (past : List (Issued × Observed)) → IsPast t past → logged_by (command_after t past).words (is_logged_there past) ≡ false }
    ensures known { (t : GivenTerms) (past : List (Issued × Observed)) → t.mode ≡ Mode.LocalDials → IsPast t past → logs_departure (command_after t past).words ≡ true → is_logged_there past ≡ true }
    ensures end_session { (t : GivenTerms) (past : List (Issued × Observed)) (session : Served) (how : Ended) → t.mode ≡ Mode.LocalDials → t.session.reconnects ≡ true → IsPast t past → (command_after t past).action ≡ Action.Serve session → how.is_arrival_logged ≡ true → (command_after t ((command_after t past, Outcome.SessionEnded how) ∷ past)).words.first ≡ Some (Notice.PeerGone how.peer) }
    ensures silent { (t : GivenTerms) (past : List (Issued × Observed)) (session : Served) (how : Ended) → t.mode ≡ Mode.LocalDials → t.session.reconnects ≡ true → IsPast t past → (command_after t past).action ≡ Action.Serve session → how.is_arrival_logged ≡ false → (command_after t ((command_after t past, Outcome.SessionEnded how) ∷ past)).words.first ≡ Some (Notice.PeerGoneSilent how.peer) }
    ensures others { (t : GivenTerms) (past : List (Issued × Observed)) (session : Served) (how : Ended) → t.mode ≢ Mode.LocalDials → t.session.reconnects ≡ true → IsPast t past → (command_after t past).action ≡ Action.Serve session → (command_after t ((command_after t past, Outcome.SessionEnded how) ∷ past)).words.last ≡ Some (Notice.PeerGone how.peer) }
    ensures from { (t : GivenTerms) (past : List (Issued × Observed)) → IsPast t past → GoneFrom (last_peer past) (command_after t past).words.first × GoneFrom (last_peer past) (command_after t past).words.last }
    ensures users { (t : GivenTerms) (past : List (Issued × Observed)) (users : Awaited) (address : Address) → IsPast t past → (command_after t past).action ≡ Action.ListenForUsers users → (command_after t ((command_after t past, Outcome.Listening address) ∷ past)).words.first ≡ Some (Notice.Listening address) }
    ensures peers { (t : GivenTerms) (past : List (Issued × Observed)) (peers : Awaiting) (address : Address) → IsPast t past → (command_after t past).action ≡ Action.ListenForPeer peers → (command_after t ((command_after t past, Outcome.Listening address) ∷ past)).words.first ≡ Some (Notice.Listening address) }
{}
