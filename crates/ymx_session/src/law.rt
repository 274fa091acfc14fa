//! Laws over definitions alone: of turns, of payload that follows what is passed on, and of streams that may be opened.
//! (The functions themselves do nothing.)

ghost use Rattle.std.specs.Prelude.{◌≡◌, ◌+◌, ◌-◌, ◌<◌, ◌≤◌, ℕ, List, length, min, true, false, Some};
ghost use Rattle.ymx_machine.specs.declared.types.CallFault.{CallFault};
ghost use Rattle.ymx_machine.specs.declared.types.Fed.{Fed};
ghost use Rattle.ymx_machine.specs.declared.types.Reply.TheVariants as reply;
ghost use Rattle.ymx_model.specs.declared.types.Event.TheVariants as event;
ghost use Rattle.ymx_model.specs.session.Calls.{open_stream, open_with, refused};
ghost use Rattle.ymx_model.specs.session.Histories.{Gives};
ghost use Rattle.ymx_model.specs.session.Tables.{due_count};
ghost use Rattle.ymx_model.specs.session.Sessions.{Session};
ghost use Rattle.ymx_model.specs.session.Emissions.{Choice, begin, moves_on, in_turn};
ghost use Rattle.ymx_machine.specs.shared.Limits.{data_limit, first_credit};
ghost use Rattle.ymx_model.specs.session.Emissions.Choice.{AStream};
ghost use Rattle.ymx_law_session.specs.Limits.{IsWithin};
ghost use Rattle.ymx_session.specs.Opens.{opens_left};
ghost use Rattle.ymx_session.specs.Passing.{all_fed, Passes, IsPlainHeader, PassesBehind};
ghost use Rattle.ymx_session.specs.Turns.{turn, own_frames, HasDue, is_of_stream, FlowsPast, IsNearerBy};

/// A stream with something due waits for at most as many frames as its turn says, while no call and no feed
/// comes between: each frame that begins for another brings it nearer, bytes that go out leave it as it is, and
/// at 0 the next frame that begins is its own. The turn is less than the session's own frames and the streams
/// with something due together. (A law over definitions: the function itself does nothing.)
pub fn turns_are_bounded()
    ensures nearer { (id : ℕ) (c : Choice) (s t : Session) → IsWithin s → HasDue id s → in_turn c s ≡ true → is_of_stream id c ≡ false → begin c s ≡ Some t → turn id t < turn id s }
    ensures still_due { (id : ℕ) (c : Choice) (s t : Session) → IsWithin s → HasDue id s → in_turn c s ≡ true → is_of_stream id c ≡ false → begin c s ≡ Some t → HasDue id t }
    ensures moved { (id n : ℕ) (s : Session) → IsWithin s → HasDue id s → turn id (moves_on n s) ≡ turn id s }
    ensures due_behind { (id n : ℕ) (s : Session) → IsWithin s → HasDue id s → HasDue id (moves_on n s) }
    ensures own_next { (id : ℕ) (c : Choice) (s t : Session) → IsWithin s → HasDue id s → turn id s ≡ 0 → in_turn c s ≡ true → begin c s ≡ Some t → c ≡ AStream id data_limit }
    ensures few { (id : ℕ) (s : Session) → HasDue id s → turn id s < own_frames s + due_count s.table }
    ensures among { (id : ℕ) (bytes : List ℕ) (frames : ℕ) (s t : Session) → IsWithin s → HasDue id s → FlowsPast id bytes frames s t → IsNearerBy frames id s t }
{}

/// What was looked at may be passed on. Once a part of a payload was passed on, the rest of it may be, and as much after it
/// as before. Once a payload was passed on whole, a feed of the plain header after it takes all of it; then the payload of
/// that header may be passed on, and after it what is left.
pub fn payload_follows()
    ensures part { (id missing behind : ℕ) (bytes : List ℕ) (s t : Session) → PassesBehind id missing behind s → 0 < length bytes → length bytes < missing → Passes id bytes s t → PassesBehind id (missing - length bytes) behind t }
    ensures follows { (id missing behind count : ℕ) (bytes header : List ℕ) (fed : Fed) (s t u : Session) → PassesBehind id missing behind s → 0 < missing → length bytes ≡ missing → Passes id bytes s t → IsPlainHeader id count header → count ≤ behind → Gives in_turn t (event.Feed header) (reply.Fed fed) u → (fed ≡ all_fed header) × PassesBehind id count (behind - count) u }
{}

/// `opens_left` is just how many streams may be opened one after another. At 0 an opening is refused, and changes
/// nothing. Above 0 it opens the next stream, if it finds memory, and then one less is left; with first bytes or without.
pub fn opens_count_down()
    ensures none { (s : Session) → opens_left s ≡ 0 → (fault : CallFault) × (open_stream s ≡ refused fault s) }
    ensures some { (s : Session) → 0 < opens_left s → (open_stream s).reply ≡ reply.Opened s.next }
    ensures less { (s : Session) → IsWithin s → 0 < opens_left s → opens_left (open_stream s).next + 1 ≡ opens_left s }
    ensures none_with { (bytes : List ℕ) (s : Session) → opens_left s ≡ 0 → (fault : CallFault) × (open_with bytes s ≡ refused fault s) }
    ensures some_with { (bytes : List ℕ) (s : Session) → 0 < opens_left s → (open_with bytes s).reply ≡ reply.OpenedWith s.next (min (length bytes) first_credit) }
    ensures less_with { (bytes : List ℕ) (s : Session) → IsWithin s → 0 < opens_left s → opens_left (open_with bytes s).next + 1 ≡ opens_left s }
{}
