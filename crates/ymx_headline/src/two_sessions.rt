//! The headline over definitions: two sessions joined by pipes answer as the queue machine, however the
//! bytes are cut and wherever they stop. The laws of single steps, of which it is made, are lemmas among the
//! proofs. Each public function is a law: it does nothing, and its contract is the theorem.
ghost use Rattle.std.specs.Prelude.{All, ◌≡◌, ◌≤◌, ◌+◌, ◌*◌, ℕ, List, length, Bool, true, false};
ghost use Rattle.ymx_machine.specs.declared.types.Answer.{Answer};
ghost use Rattle.ymx_machine.specs.declared.types.Step.{Step};
ghost use Rattle.ymx_header.specs.declared.header.Header.{Header};
ghost use Rattle.ymx_header.specs.Headers.{header_of};
ghost use Rattle.ymx_model.specs.declared.types.Response.{Response};
ghost use Rattle.ymx_model.specs.session.Arrivals.{head_comes};
ghost use Rattle.ymx_machine.specs.shared.Limits.{data_limit};
ghost use Rattle.ymx_model.specs.session.Sessions.{Session};
ghost use Rattle.ymx_model.specs.session.Emissions.{Choice, in_turn, answer_frame};
ghost use Rattle.ymx_model.specs.world.Worlds.{World, Steps, Runs, new_world, is_quiet};
ghost use Rattle.ymx_model.specs.world.UnderWay.{IsUnderWay};
ghost use Rattle.ymx_model.specs.world.Load.{world_load};
ghost use Rattle.ymx_machine.specs.machine.Machines.{Machine, new_machine};
ghost use Rattle.ymx_headline.specs.world.Texts.{AreWithin, AreFrames};
ghost use Rattle.ymx_headline.specs.Laws.{AreGood, HasRun, IsOpenWorld, Carries, KeepsCarrying, carries_bytes, breaks_off};
ghost use Rattle.ymx_headline.specs.Agrees.{Agrees};

/// The headline. However the bytes between two sessions are cut, and wherever they stop, every run of them
/// has a run of the queue machine with the same answers, and the machine is still whenever the world is
/// quiet. No answer tells of a fault. From a world and a machine that agree runs go on so, one after another.
pub fn headline()
    ensures every_run { (may : Choice → Session → Bool) (steps : List Step) (answers : List Answer) (window_a first_a window_b first_b : ℕ) (w : World) →
        AreGood window_a first_a window_b first_b → Runs may steps answers (new_world window_a first_a window_b first_b) w →
        HasRun may steps answers (new_world window_a first_a window_b first_b) w (new_machine window_a first_a window_b first_b) }
    ensures goes_on { (may : Choice → Session → Bool) (steps : List Step) (answers : List Answer) (w v : World) (m : Machine) →
        Agrees w m → Runs may steps answers w v → HasRun may steps answers w v m }
    ensures no_fault { (may : Choice → Session → Bool) (steps : List Step) (answers : List Answer) (w v : World) (m : Machine) →
        Agrees w m → Runs may steps answers w v → All (λ given. breaks_off given ≡ false) answers }
{}

/// Nothing sticks: a world that isn't quiet, in which nothing was stopped, ended, closed or broken, has an
/// emission that gives, or a delivery that takes, at least one byte. And in such a world emissions and
/// deliveries alone, however many, feed wholly at most twice as many frames as its load: a frame makes at
/// most one answer, and the frame of an answer makes none. So driving its bytes ends: no run of emissions and
/// deliveries that each carry a byte is longer than some number, which the world has by itself.
pub fn nothing_sticks()
    ensures goes_on { (w : World) → AreWithin w → IsOpenWorld w → is_quiet w ≡ false →
        (step : Step) × (given : Answer) × (v : World) × Steps in_turn step given w v × (carries_bytes step given ≡ true) }
    ensures bounded { (may : Choice → Session → Bool) (steps : List Step) (answers : List Answer) (w v : World) (frames_ab frames_ba : List (List ℕ)) (fed : ℕ) →
        AreWithin w → IsOpenWorld w → IsUnderWay w.b w.ab w.a frames_ab → IsUnderWay w.a w.ba w.b frames_ba →
        Carries may steps answers w v fed → fed ≤ 2 * world_load 1 w frames_ab frames_ba }
    ensures bounded_in_turn { (steps : List Step) (answers : List Answer) (w v : World) (frames_ab frames_ba : List (List ℕ)) (fed : ℕ) →
        AreWithin w → IsOpenWorld w → IsUnderWay w.b w.ab w.a frames_ab → IsUnderWay w.a w.ba w.b frames_ba →
        Carries in_turn steps answers w v fed → fed ≤ 2 * world_load data_limit w frames_ab frames_ba }
    ensures ends { (may : Choice → Session → Bool) (w : World) (m : Machine) → Agrees w m → AreFrames w → IsOpenWorld w →
        (most : ℕ) × ((steps : List Step) (answers : List Answer) (v : World) → KeepsCarrying may steps answers w v → length steps ≤ most) }
    ensures one_answer { (no_memory : Bool) (h : Header) (s : Session) → length (head_comes no_memory h s).answers ≤ length s.answers + 1 }
    ensures none_to_an_answer { (no_memory : Bool) (response : Response) (s : Session) → (head_comes no_memory (header_of (answer_frame response)) s).answers ≡ s.answers }
{}
