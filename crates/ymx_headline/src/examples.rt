//! Worked examples of the protocol, computed from the definitions of `ymx_model`. `specs/Plays.antt` plays
//! a session or a world by computation, with ample memory and frames in turn; a first law says that
//! what is played is what the definitions allow, a second one has examples. (More are in proofs/.)

ghost use Rattle.std.specs.Prelude.{◌≡◌, ◌<◌, ◌≤◌, ◌^◌, ◌++◌, ◌∷◌, [], ℕ, List, Some, replicate, true, false};
ghost use Rattle.ymx_header.specs.declared.fault.Fault.TheVariants.{BadVersion, CreditOverflow};
ghost use Rattle.ymx_model.specs.declared.types.Role.TheVariants.{Client, Server};
ghost use Rattle.ymx_machine.specs.declared.types.Side.TheVariants.{A, B};
ghost use Rattle.ymx_machine.specs.declared.types.Direction.TheVariants.{AB, BA};
ghost use Rattle.ymx_machine.specs.declared.types.Step.{Step};
ghost use Rattle.ymx_machine.specs.declared.types.Step.TheVariants.{Emit, Deliver, Stop, End};
ghost use Rattle.ymx_machine.specs.declared.types.Call.TheVariants.{Open, OpenWith, Accept, Write, Read, Finish, Reset, Ping, GoAway, Ponged};
ghost use Rattle.ymx_machine.specs.declared.types.Answer.TheVariants.{Opened, Accepted, Read as GaveBytes, ReadEnd, ReadWait, Done, Refused, Emitted, Pinged, Ponged as Back};
ghost use Rattle.ymx_machine.specs.declared.types.CallFault.TheVariants as fault;
ghost use Rattle.ymx_machine.specs.shared.Limits.{first_credit};
ghost use Rattle.ymx_model.specs.session.Sessions.{Session, is_own};
ghost use Rattle.ymx_model.specs.session.Feeds.{Feeds};
ghost use Rattle.ymx_model.specs.session.Emissions.{Emits, in_turn};
ghost use Rattle.ymx_model.specs.world.Worlds.{Runs, is_quiet, new_world};
ghost use Rattle.ymx_law_session.specs.Limits.{IsWithin};
ghost use Rattle.ymx_headline.specs.worked.Plays.{play, play_feed, play_emit};
ghost use Rattle.ymx_headline.specs.worked.Words.{start, client, server, a, b, took, fed, broken, after_call, window_frame, hello};

/// What is played is allowed: the answers of a world are those of a run of it, a feed is a feed, and
/// an emission is one in turn.
pub fn played_is_allowed()
    ensures world { (steps : List Step) (window_a first_a window_b first_b : ℕ) → first_credit ≤ window_a → window_a ≤ 16777216 → first_credit ≤ window_b → window_b ≤ 16777216 → is_own Client first_a ≡ true → is_own Server first_b ≡ true → first_a < 2 ^ 32 → 0 < first_b → first_b < 2 ^ 32 → Runs in_turn steps (play steps (new_world window_a first_a window_b first_b)).answers (new_world window_a first_a window_b first_b) (play steps (new_world window_a first_a window_b first_b)).world }
    ensures feeding { (bytes : List ℕ) (s : Session) → IsWithin s → Feeds s bytes (play_feed bytes s).fed (play_feed bytes s).state }
    ensures emitting { (room : ℕ) (s : Session) → IsWithin s → Emits in_turn s room (play_emit room s).out (play_emit room s).state }
{}

/// What some steps and bytes lead to, one thing an example.
pub fn worked_examples()
    ensures open_is_a_window_update { (play (a Open ∷ Emit A 100 ∷ []) start).world.ab.bytes ≡ window_frame 1 1 }
    ensures data_byte_by_byte { (play (a Open ∷ a (Write 1 hello) ∷ Emit A 100 ∷ (replicate 29 (Deliver AB 1) ++ (b Accept ∷ b (Read 1 10) ∷ []))) start).answers ≡ Opened 1 ∷ took 5 ∷ Emitted 29 ∷ (replicate 29 (fed 1) ++ (Accepted (Some 1) ∷ GaveBytes hello ∷ [])) }
    ensures quiet_with_a_stream { is_quiet (play (a Open ∷ a (Write 1 hello) ∷ Emit A 100 ∷ Deliver AB 100 ∷ b Accept ∷ b (Read 1 10) ∷ Emit B 100 ∷ Deliver BA 100 ∷ []) start).world ≡ true }
    ensures half_close { (play (a Open ∷ a (Write 1 (0x61 ∷ 0x62 ∷ [])) ∷ a (Finish 1) ∷ Emit A 100 ∷ Deliver AB 100 ∷ b Accept ∷ b (Read 1 1) ∷ b (Read 1 1) ∷ b (Read 1 1) ∷ b (Read 1 1) ∷ a (Write 1 (0x63 ∷ [])) ∷ a (Finish 1) ∷ []) start).answers ≡ Opened 1 ∷ took 2 ∷ Done ∷ Emitted 38 ∷ fed 38 ∷ Accepted (Some 1) ∷ GaveBytes (0x61 ∷ []) ∷ GaveBytes (0x62 ∷ []) ∷ ReadEnd ∷ ReadEnd ∷ Refused fault.Finished ∷ Refused fault.Finished ∷ [] }
    ensures end_inside_a_header { (play (a Open ∷ a (Write 1 (0x68 ∷ 0x69 ∷ [])) ∷ Emit A 100 ∷ Deliver AB 100 ∷ b Accept ∷ a (Write 1 (0x6a ∷ [])) ∷ Emit A 11 ∷ Deliver AB 11 ∷ Stop AB ∷ End AB ∷ b (Read 1 10) ∷ b (Read 1 10) ∷ []) start).answers ≡ Opened 1 ∷ took 2 ∷ Emitted 26 ∷ fed 26 ∷ Accepted (Some 1) ∷ took 1 ∷ Emitted 11 ∷ fed 11 ∷ Done ∷ Done ∷ GaveBytes (0x68 ∷ 0x69 ∷ []) ∷ Refused fault.Lost ∷ [] }
    ensures another_version { (play_feed (1 ∷ 0 ∷ 0 ∷ 0 ∷ 0 ∷ 0 ∷ 0 ∷ 1 ∷ 0 ∷ 0 ∷ 0 ∷ 0 ∷ []) server).fed ≡ broken 12 BadVersion }
    ensures ids_used_up { (play (a Open ∷ a Open ∷ []) (new_world 262144 4294967293 262144 2)).answers ≡ Opened 4294967293 ∷ Refused fault.Exhausted ∷ [] }
    ensures ping_and_pong { (play (a Ping ∷ Emit A 100 ∷ Deliver AB 100 ∷ a (Ponged 0) ∷ Emit B 100 ∷ Deliver BA 100 ∷ a (Ponged 0) ∷ a (Ponged 0) ∷ []) start).answers ≡ Pinged 0 ∷ Emitted 12 ∷ fed 12 ∷ Back false ∷ Emitted 12 ∷ fed 12 ∷ Back true ∷ Back false ∷ [] }
    ensures refused_behind_go_away { (play (b GoAway ∷ a Open ∷ Emit A 100 ∷ Deliver AB 100 ∷ Emit B 100 ∷ Deliver BA 100 ∷ a (Read 1 5) ∷ a Open ∷ []) start).answers ≡ Done ∷ Opened 1 ∷ Emitted 12 ∷ fed 12 ∷ Emitted 24 ∷ fed 24 ∷ Refused fault.Reset ∷ Refused fault.PeerAway ∷ [] }
    ensures nothing_to_read { (play (a Open ∷ a (Read 1 0) ∷ a (Write 1 []) ∷ a (Read 1 5) ∷ a (Read 3 5) ∷ []) start).answers ≡ Opened 1 ∷ GaveBytes [] ∷ took 0 ∷ ReadWait ∷ Refused fault.NoStream ∷ [] }
    ensures greatest_credit { (play_feed (0 ∷ 1 ∷ 0 ∷ 0 ∷ 0 ∷ 0 ∷ 0 ∷ 1 ∷ 0 ∷ 0 ∷ 0 ∷ 1 ∷ []) (play_feed (0 ∷ 1 ∷ 0 ∷ 2 ∷ 0 ∷ 0 ∷ 0 ∷ 1 ∷ 0xff ∷ 0xfb ∷ 0xff ∷ 0xff ∷ []) (after_call Open client).next).state).fed ≡ broken 12 CreditOverflow }
    ensures with_data { (play (a (OpenWith (0x68 ∷ 0x69 ∷ [])) ∷ Emit A 100 ∷ []) start).world.ab.bytes ≡ 0 ∷ 0 ∷ 0 ∷ 1 ∷ 0 ∷ 0 ∷ 0 ∷ 1 ∷ 0 ∷ 0 ∷ 0 ∷ 2 ∷ 0x68 ∷ 0x69 ∷ [] }
    ensures wide_window { (play (a Open ∷ Emit A 100 ∷ []) (new_world 1048576 1 262144 2)).world.ab.bytes ≡ 0 ∷ 1 ∷ 0 ∷ 1 ∷ 0 ∷ 0 ∷ 0 ∷ 1 ∷ 0 ∷ 12 ∷ 0 ∷ 0 ∷ [] }
{}
