//! Bytes to frames: what is under way between two sessions joined by pipes is whole frames. The function does
//! nothing: its contract is the theorem.
ghost use Rattle.std.specs.Prelude.{◌≡◌, ◌^◌, ◌<◌, ◌≤◌, [], ℕ, List, Bool, true, false, take, None};
ghost use Rattle.ymx_header.specs.Headers.{header_of};
ghost use Rattle.ymx_machine.specs.declared.types.Answer.{Answer};
ghost use Rattle.ymx_machine.specs.declared.types.Fed.{Fed};
ghost use Rattle.ymx_model.specs.declared.types.Role.TheVariants.{Client, Server};
ghost use Rattle.ymx_model.specs.declared.types.Status.TheVariants.{Running};
ghost use Rattle.ymx_machine.specs.declared.types.Step.{Step};
ghost use Rattle.ymx_machine.specs.shared.Limits.{first_credit, widest_window};
ghost use Rattle.ymx_model.specs.session.Sessions.{Session, is_own};
ghost use Rattle.ymx_model.specs.session.Sessions.Incoming.{Head};
ghost use Rattle.ymx_model.specs.session.Arrivals.{header_fault};
ghost use Rattle.ymx_model.specs.session.Feeds.{Feeds};
ghost use Rattle.ymx_model.specs.session.Emissions.{Choice, Emits};
ghost use Rattle.ymx_model.specs.world.Worlds.{World, Pipe, Steps, Runs, new_world, is_quiet, without_front};
ghost use Rattle.ymx_model.specs.world.UnderWay.{IsOneFrame, IsUnderWay};
ghost use Rattle.ymx_law_session.specs.Limits.{IsWithin};
ghost use Rattle.ymx_headline.specs.world.Texts.{AreFrames, AreWithin, IsLater, IsDelivered};

/// In each direction that still carries bytes, what the receiver holds of a frame, the pipe, and the rest
/// of the sender's frame begun are whole frames one after the other, after the rest of a payload
/// (framing). So it is whatever the two sides do and however the bytes are cut: an emission adds frames at
/// the end, a delivery takes some from the front. These frames are settled by the bytes, and no session
/// within its limits finds a fault in the header of one by itself. In a quiet world no session is inside a
/// frame.
pub fn frames_under_way()
    ensures emitted { (may : Choice → Session → Bool) (room : ℕ) (out : List ℕ) (receiver : Session) (pipe : Pipe) (sender after : Session) (frames : List (List ℕ)) →
        Emits may sender room out after → pipe.stopped ≡ false → IsUnderWay receiver pipe sender frames → IsLater receiver pipe after out frames }
    ensures delivered { (n : ℕ) (fed : Fed) (receiver after sender : Session) (pipe : Pipe) (frames : List (List ℕ)) →
        Feeds receiver (take n pipe.bytes) fed after → IsWithin receiver → after.status ≡ Running → IsUnderWay receiver pipe sender frames → IsDelivered after (without_front fed.taken pipe) sender frames }
    ensures kept { (may : Choice → Session → Bool) (step : Step) (answer : Answer) (w v : World) → Steps may step answer w v → AreWithin w → AreFrames w → AreFrames v }
    ensures always { (may : Choice → Session → Bool) (steps : List Step) (answers : List Answer) (window_a first_a window_b first_b : ℕ) (w : World) →
        first_credit ≤ window_a → window_a ≤ widest_window → first_credit ≤ window_b → window_b ≤ widest_window →
        is_own Client first_a ≡ true → is_own Server first_b ≡ true → first_a < 2 ^ 32 → 0 < first_b → first_b < 2 ^ 32 →
        Runs may steps answers (new_world window_a first_a window_b first_b) w → AreWithin w × AreFrames w }
    ensures one_text { (receiver : Session) (pipe : Pipe) (sender : Session) (frames others : List (List ℕ)) →
        IsUnderWay receiver pipe sender frames → IsUnderWay receiver pipe sender others → frames ≡ others }
    ensures good_headers { (bytes : List ℕ) (s : Session) → IsOneFrame bytes → IsWithin s → header_fault (header_of bytes) s ≡ None }
    ensures quiet { (w : World) → is_quiet w ≡ true → AreWithin w → AreFrames w → (w.a.incoming ≡ Head []) × (w.b.incoming ≡ Head []) }
{}
