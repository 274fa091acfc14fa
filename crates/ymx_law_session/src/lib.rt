//! Laws of one session by itself, over the definitions of `ymx_model`: how feeds join, what a whole
//! frame does, which limits hold whatever comes, when something is due, what stays as it was. Each
//! public function is a law: it does nothing, and its contract is the theorem.
#![tactic(auto)]

ghost use Rattle.std.specs.Prelude.{◌≡◌, ◌+◌, ◌^◌, ◌<◌, ◌≤◌, ◌++◌, ◌∷◌, [], ℕ, List, Bool, length, drop, true, false, is_some, Some, All};
ghost use Rattle.ymx_header.specs.Headers.{has_rst};
ghost use Rattle.ymx_header.specs.declared.header.Header.{Header};
ghost use Rattle.ymx_machine.specs.shared.Events.{Call};
ghost use Rattle.ymx_machine.specs.declared.types.Call.TheVariants as call;
ghost use Rattle.ymx_model.specs.declared.types.Entry.{Entry};
ghost use Rattle.ymx_model.specs.session.Events.{Event};
ghost use Rattle.ymx_machine.specs.declared.types.Fed.{Fed};
ghost use Rattle.ymx_machine.specs.shared.Events.{Reply};
ghost use Rattle.ymx_machine.specs.declared.types.Reply.TheVariants.{Accepted};
ghost use Rattle.ymx_model.specs.declared.types.Role.{Role};
ghost use Rattle.ymx_model.specs.declared.types.GoAwayMark.TheVariants.{Unsaid};
ghost use Rattle.ymx_machine.specs.shared.Lists.{look};
ghost use Rattle.ymx_machine.specs.shared.Limits.{most_records, first_credit, most_offered, widest_window};
ghost use Rattle.ymx_model.specs.session.Records.{End};
ghost use Rattle.ymx_model.specs.session.FramesDue.{is_due, next_kind};
ghost use Rattle.ymx_model.specs.session.Sessions.{Session, new_session, is_own, is_running};
ghost use Rattle.ymx_model.specs.session.Calls.{outcome};
ghost use Rattle.ymx_model.specs.session.Arrivals.{head_comes, piece_comes};
ghost use Rattle.ymx_model.specs.session.Feeds.{Takes, Feeds, feed};
ghost use Rattle.ymx_model.specs.session.Emissions.{Choice, begin, Emits, moves_on, is_ready, freely, in_turn};
ghost use Rattle.ymx_model.specs.session.Emissions.Choice.{AStream};
ghost use Rattle.ymx_model.specs.session.Histories.{Gives, ReplaysFrom};
ghost use Rattle.ymx_law_session.specs.Fields.{Fits, NumbersFit, HalvesFit, FeedsBytes};
ghost use Rattle.ymx_law_session.specs.Chunks.{joined_fed, FedInTwo};
ghost use Rattle.ymx_law_session.specs.Limits.{IsWithin};
ghost use Rattle.ymx_law_session.specs.Offers.{IsGoodSyn, HasCause, IsOffered, IsRejected, LeavesNoTrace};
ghost use Rattle.ymx_law_session.specs.Reaped.{IsReaped, NoneLingers};
ghost use Rattle.ymx_law_session.specs.Refusals.{reply_is_refused, OthersSame, OnlyRecord, OnlyArrived, KeepsOwn, KeepsStreams};

/// What is fed in two pieces is what is fed at once (framing): the bytes taken, the streams refused
/// for lack of memory and the reason are the same, wherever the input is cut.
pub fn fed_in_pieces()
    ensures bytes_join { (a b : List ℕ) (s t u : Session) (m n : ℕ) → Takes a s t m → Takes b t u n → Takes (a ++ b) s u (m + n) }
    ensures bytes_split { (a b : List ℕ) (s u : Session) (n : ℕ) → Takes (a ++ b) s u n → (t : Session) × (k : ℕ) × (m : ℕ) × (n ≡ k + m) × Takes a s t k × Takes b t u m }
    ensures feeds_join { (a b : List ℕ) (s t u : Session) (f g : Fed) → Feeds s a f t → f.taken ≡ length a → Feeds t b g u → Feeds s (a ++ b) (joined_fed f g) u }
    ensures feeds_split { (a b : List ℕ) (s u : Session) (fed : Fed) → length a ≤ fed.taken → Feeds s (a ++ b) fed u → FedInTwo a b s u fed }
    ensures with_memory { (input : List ℕ) (s t : Session) (fed : Fed) → Feeds s input fed t → fed.no_memory ≡ 0 → feed input s ≡ record { state = t; rest = drop fed.taken input } }
    ensures feed_stops_inside { (a b : List ℕ) (s u : Session) (fed : Fed) → fed.taken < length a → Feeds s (a ++ b) fed u → Feeds s a fed u }
    ensures feed_stops_before { (a b : List ℕ) (s u : Session) (fed : Fed) → fed.taken < length a → Feeds s a fed u → Feeds s (a ++ b) fed u }
{}

/// The limits of a session hold always, whatever its callers do and whatever bytes a peer sends
/// (flow control; this project's own limits).
pub fn limits_hold()
    ensures at_first { (role : Role) (window first : ℕ) → first_credit ≤ window → window ≤ widest_window → is_own role first ≡ true → 0 < first → first < 2 ^ 32 → IsWithin (new_session role window first) }
    ensures kept { (may : Choice → Session → Bool) (s t : Session) (event : Event) (reply : Reply) → Gives may s event reply t → IsWithin s → IsWithin t }
    ensures always { (may : Choice → Session → Bool) (at : ℕ) (entries : List Entry) (s t : Session) → ReplaysFrom may at entries s t → IsWithin s → IsWithin t }
{}

/// The numbers that a session keeps fit the fields of a header, 32 bits each, as long as bytes are fed
/// (framing): its own ids and the peer's, credit, granted and owed bytes, the answers and the pings.
pub fn numbers_fit()
    ensures at_first { (role : Role) (window first : ℕ) → NumbersFit (new_session role window first) }
    ensures kept { (may : Choice → Session → Bool) (s t : Session) (event : Event) (reply : Reply) → FeedsBytes event → Gives may s event reply t → IsWithin s → NumbersFit s → NumbersFit t }
    ensures always { (may : Choice → Session → Bool) (at : ℕ) (entries : List Entry) (s t : Session) → All (λ entry. FeedsBytes entry.event) entries → ReplaysFrom may at entries s t → IsWithin s → NumbersFit s → NumbersFit t }
    ensures records { (id : ℕ) (s : Session) (e : End) → IsWithin s → NumbersFit s → look id s.table.entries ≡ Some e → Fits id × HalvesFit e }
    ensures offered { (s : Session) → IsWithin s → NumbersFit s → All Fits s.offered }
{}

/// Something is due exactly if an emission gives a byte, in turn or in any order.
pub fn due_is_exact()
    ensures due_gives { (s : Session) → IsWithin s → is_ready s ≡ true → (b : ℕ) × (t : Session) × Emits in_turn s 1 (b ∷ []) t }
    ensures given_was_due { (may : Choice → Session → Bool) (s : Session) (room b : ℕ) (bytes : List ℕ) (t : Session) → Emits may s room (b ∷ bytes) t → is_ready s ≡ true }
    ensures due_always_gives { (may : Choice → Session → Bool) (s : Session) (room : ℕ) (out : List ℕ) (t : Session) → is_ready s ≡ true → 0 < room → Emits may s room out t → 0 < length out }
    ensures none_due_gives_none { (may : Choice → Session → Bool) (s : Session) (room : ℕ) (out : List ℕ) (t : Session) → is_ready s ≡ false → Emits may s room out t → out ≡ [] }
    ensures none_given_none_due { (s : Session) → IsWithin s → ((t : Session) (out : List ℕ) → Emits freely s 1 out t → out ≡ []) → is_ready s ≡ false }
    ensures any_room { (room : ℕ) (s : Session) → IsWithin s → (out : List ℕ) × (t : Session) × Emits in_turn s room out t }
    ensures any_order { (may : Choice → Session → Bool) (s : Session) (room : ℕ) (out : List ℕ) (t : Session) → Emits may s room out t → Emits freely s room out t }
    ensures of_a_stream { (window : ℕ) (e : End) → is_due window e ≡ is_some (next_kind window e) }
{}

/// Every event has an answer: a session within its limits goes on whatever is asked of it and whatever comes.
pub fn every_event_answers()
    ensures { (s : Session) (event : Event) → IsWithin s → (reply : Reply) × (t : Session) × Gives in_turn s event reply t }
{}

/// Turns leave no choice: what one session emits in turn into one room is the same bytes, and it is
/// then in the same state. No Data carries more than 16,384 bytes (framing).
pub fn turns_leave_no_choice()
    ensures unique { (room : ℕ) (s t u : Session) (out other : List ℕ) → Emits in_turn s room out t → Emits in_turn s room other u → (out ≡ other) × (t ≡ u) }
    ensures frame_limit { (id limit : ℕ) (s t : Session) → begin (AStream id limit) s ≡ Some t → length t.outgoing.bytes ≤ 12 + limit }
    ensures data_limit { (id limit : ℕ) (s : Session) → in_turn (AStream id limit) s ≡ true → limit ≡ 16384 }
{}

/// A refusal changes nothing; a call on a stream, a frame of it, and a piece of its payload leave
/// every other record as it was. And but for its record a call on a stream changes nothing, nor the
/// window nor the order of the others, so a reset keeps the rest of a frame begun; frames of streams leave pings and go away, and those of the session
/// leave the streams.
pub fn nothing_else_changes()
    ensures refused { (c : Call) (s : Session) → reply_is_refused (outcome c s).reply ≡ true → (outcome c s).next ≡ s }
    ensures write { (id : ℕ) (bytes : List ℕ) (s : Session) → OthersSame id s (outcome (call.Write id bytes) s).next }
    ensures read { (id max : ℕ) (s : Session) → OthersSame id s (outcome (call.Read id max) s).next }
    ensures finish { (id : ℕ) (s : Session) → OthersSame id s (outcome (call.Finish id) s).next }
    ensures reset { (id : ℕ) (s : Session) → OthersSame id s (outcome (call.Reset id) s).next }
    ensures forget { (id : ℕ) (s : Session) → OthersSame id s (outcome (call.Forget id) s).next }
    ensures head { (no_memory : Bool) (h : Header) (s : Session) → OthersSame h.id s (head_comes no_memory h s) }
    ensures piece { (bytes : List ℕ) (id missing : ℕ) (fin discarded : Bool) (s : Session) → OthersSame id s (piece_comes bytes id missing fin discarded s) }
    ensures open { (s : Session) → OthersSame s.next s (outcome call.Open s).next }
    ensures open_with { (bytes : List ℕ) (s : Session) → OthersSame s.next s (outcome (call.OpenWith bytes) s).next }
    ensures accept { (id : ℕ) (s : Session) → (outcome call.Accept s).reply ≡ Accepted (Some id) → OthersSame id s (outcome call.Accept s).next }
    ensures frame_begins { (id limit : ℕ) (s t : Session) → begin (AStream id limit) s ≡ Some t → OthersSame id s t }
    ensures frame_goes_on { (n id : ℕ) (s : Session) → s.outgoing.of ≡ Some id → OthersSame id s (moves_on n s) }
    ensures write_alone { (id : ℕ) (bytes : List ℕ) (s : Session) → OnlyRecord id s (outcome (call.Write id bytes) s).next }
    ensures read_alone { (id max : ℕ) (s : Session) → OnlyRecord id s (outcome (call.Read id max) s).next }
    ensures finish_alone { (id : ℕ) (s : Session) → OnlyRecord id s (outcome (call.Finish id) s).next }
    ensures reset_alone { (id : ℕ) (s : Session) → OnlyRecord id s (outcome (call.Reset id) s).next }
    ensures forget_alone { (id : ℕ) (s : Session) → OnlyRecord id s (outcome (call.Forget id) s).next }
    ensures piece_alone { (bytes : List ℕ) (id missing : ℕ) (fin discarded : Bool) (s : Session) → OnlyArrived s (piece_comes bytes id missing fin discarded s) }
    ensures stream_frame { (no_memory : Bool) (h : Header) (s : Session) → h.kind < 2 → KeepsOwn s (head_comes no_memory h s) }
    ensures session_frame { (no_memory : Bool) (h : Header) (s : Session) → 2 ≤ h.kind → KeepsStreams s (head_comes no_memory h s) }
{}

/// A stream that the peer opens is rejected where go away was said here, where 256 streams wait to be
/// accepted, where 1,024 are there, or for lack of memory; else it is offered (flags). One that its first
/// frame resets is rejected for the same causes, and else leaves no trace.
pub fn streams_are_offered()
    ensures offered { (h : Header) (s : Session) → IsGoodSyn h s → has_rst h ≡ false → s.away.here ≡ Unsaid → length s.offered < most_offered → length s.table.entries < most_records → IsOffered h s (head_comes false h s) }
    ensures rejected { (no_memory : Bool) (h : Header) (s : Session) → IsGoodSyn h s → HasCause s → IsRejected h s (head_comes no_memory h s) }
    ensures reset_at_once { (h : Header) (s : Session) → IsGoodSyn h s → has_rst h ≡ true → s.away.here ≡ Unsaid → length s.offered < most_offered → length s.table.entries < most_records → IsWithin s → LeavesNoTrace s (head_comes false h s) }
    ensures starved { (h : Header) (s : Session) → IsGoodSyn h s → IsRejected h s (head_comes true h s) }
{}

/// A stream that was given up goes as soon as its last frame is out: while a session runs and has
/// nothing due, none is left.
pub fn given_up_goes()
    ensures at_first { (role : Role) (window first : ℕ) → IsReaped (new_session role window first) }
    ensures kept { (may : Choice → Session → Bool) (s t : Session) (event : Event) (reply : Reply) → Gives may s event reply t → IsWithin s → IsReaped s → IsReaped t }
    ensures always { (may : Choice → Session → Bool) (at : ℕ) (entries : List Entry) (s t : Session) → ReplaysFrom may at entries s t → IsWithin s → IsReaped s → IsReaped t }
    ensures none_lingers { (s : Session) → IsReaped s → is_running s.status ≡ true → is_ready s ≡ false → NoneLingers s }
{}
