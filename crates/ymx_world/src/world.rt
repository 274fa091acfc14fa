//! The type `World`, and its calls.

ghost use Rattle.std.specs.Prelude.{◌≡◌, ◌⊎◌, ◌<◌, ◌↔◌, ℕ, [], IsTrue, All, length, take, true, false, None, IfOk, IfErr, IfSome, IfNone, OnErr};
ghost use Rattle.ymx_model.specs.declared.types.Role.TheVariants.{Client, Server};
ghost use Rattle.ymx_model.specs.session.Emissions.{in_turn, is_ready};
ghost use Rattle.ymx_model.specs.world.Worlds.{World as TheWorld, Steps, Runs, new_world, is_quiet};
ghost use Rattle.ymx_machine.specs.machine.Machines.{Machine, new_machine};
ghost use Rattle.ymx_machine.specs.machine.Runs.{IsStillMachine};
ghost use Rattle.ymx_headline.specs.Agrees.{Agrees, Follows};
ghost use Rattle.ymx_headline.specs.Laws.{HasRun, IsOpenWorld, breaks_off, carries_bytes, is_carriage};
ghost use Rattle.ymx_session.specs.NewSessions.{first_id, new_fault, IsNewFault};
ghost use Rattle.ymx_machine.specs.declared.types.Step.{Step as TheStep};
ghost use Rattle.ymx_machine.specs.declared.types.Answer.{Answer as TheAnswer};
ghost use Rattle.ymx_world.specs.Bounds.{IsBoundedRun};
ghost use Rattle.ymx_world.specs.Acts.{session_of, pipe_of};
ghost use Rattle.ymx_world.specs.Progress.{GoesForward};
ghost use Rattle.ymx_world.specs.Driven.{IsCarriedOn, IsDueCarriage};
ghost use Rattle.ymx_world.specs.Played.{machine_of, world_of, WhereStopped, IsPlayFault};
ghost use Rattle.ymx_headline.specs.machine.Arrivals.{AllArrive, AllAreGiven, AllAreOffered, AllTakeEnough};
ghost use Rattle.ymx_headline.specs.machine.Faces.{FitWindows};
ghost use Rattle.ymx_headline.specs.machine.Runs.{StillRun};
ghost use Rattle.ymx_headline.specs.QuietRuns.{QuietRuns};
ghost use Rattle.ymx_machine.specs.Promise.{AllDeliverInOrder};

use crate::driven::{Driven, refused_by};
use crate::pipes::SessionPipes;
use crate::played::{PlayFault, Played};
use crate::stopped::Stopped;
use std::alloc::Global;
use std::marker::Model;
use ymx_memory::{RefusalCount, RefusedAllocation};
use ymx_model::{Answer, Config, Direction, Role, Side, Step};
use ymx_session::{NewFault, Session};

/// The room of an emission that drives a world, in bytes: four of the longest frames that a session emits.
const ROOM: usize = 65_584;

/// Two sessions joined by pipes. A contract sees the record `World` of `ymx_model`, and that it was reached
/// from a new one by steps.
///
/// A is the client and B the server; the direction AB carries A's bytes.
#[derive(Drop)]
pub struct World {
    pipes: SessionPipes,
}

impl Model for World {
    ghost use Rattle.ymx_model.specs.world.Worlds.{World as WorldValue};
    ghost use Rattle.ymx_world.specs.Reached.{IsReached};

    ghost Value = { WorldValue };

    ghost view = { λ w. w.pipes };

    ghost invariant = { λ w. IsReached w.pipes };
}

impl World {
    /// Makes a world of two sessions that have done nothing, the client's config first. The fault is that of
    /// the client's session, or else of the server's: `BadWindow`, `BadFirst` or `OutOfMemory`, as of
    /// `Session::new`.
    pub fn new(alloc: Global, config_a: Config, config_b: Config) -> Result<World, NewFault>
        ensures made { IfOk result (λ world. world ≡ new_world config_a.window (first_id Client config_a.first) config_b.window (first_id Server config_b.first)) }
        ensures may_a { IfOk result (λ world. new_fault Client config_a ≡ None) }
        ensures may_b { IfOk result (λ world. new_fault Server config_b ≡ None) }
        // The headline begins here: the queue machine of these two sides agrees with the world.
        ensures begins { IfOk result (λ world. Agrees world (new_machine config_a.window (first_id Client config_a.first) config_b.window (first_id Server config_b.first))) }
        ensures refused { IfErr result (λ fault. IsNewFault Client config_a fault ⊎ (new_fault Client config_a ≡ None) × IsNewFault Server config_b fault) }
    {
        let a = Session::new(alloc, Role::Client, config_a)?;
        let b = Session::new(alloc, Role::Server, config_b)?;
        let pipes = SessionPipes::new(alloc, a, b);
        Ok(World { pipes })
    }

    /// One step: a call at a side; an emission, which goes onto the side's pipe, or vanishes where that was
    /// stopped; a delivery of a pipe's first bytes, all if there are fewer, of which those that the session
    /// takes leave the pipe; a stop; an end, which answers `NotStopped` without a stop before. `RefusedAllocation` where
    /// there is no memory for the bytes that are read or emitted: then nothing is done.
    ///
    /// A session's own lack of memory is an answer, as each of its refusals is.
    pub fn step(&mut self, step: &Step) -> Result<Answer, RefusedAllocation>
        ensures steps { IfOk result (λ given. Steps in_turn step.now given self.old self.new) }
        ensures same { OnErr result (self.new ≡ self.old) }
        // A queue machine that agreed with the world has a step with this answer, and agrees again.
        ensures machine { IfOk result (λ given. (m : Machine) → Agrees self.old m → Follows step.now given self.new m) }
        // No session breaks.
        ensures no_fault { IfOk result (λ given. breaks_off given ≡ false) }
        // An emission gives what is due. A delivery takes a byte, or its receiver is held and has an answer due.
        ensures forward { IfOk result (λ given. GoesForward step.now given self.old) }
    {
        self.pipes.step(step)
    }

    /// Some steps, one after another, and their answers. `Stopped` where there was no memory of the world's
    /// own for one of them: that one did nothing.
    ///
    /// Each queue machine that agreed with the world before has a run with the same answers, which is still
    /// whenever the world is quiet, and agrees with the world after it.
    ///
    /// No delivery among them finds a fault. Where nothing was stopped, ended, closed or broken, emissions and
    /// deliveries alone feed wholly at most twice as many frames as the load of the world: driving the bytes
    /// comes to an end. The load (`world_load` of `ymx_model`) counts the frames of the unsent bytes, what else is
    /// due, and the frames under way.
    pub fn run(&mut self, steps: &[Step]) -> Result<Vec<Answer>, Stopped>
        ensures runs { IfOk result (λ answers. Runs in_turn steps.now answers.items self.old self.new) }
        ensures before { IfErr result (λ stopped. length stopped.answers.items < length steps.now) }
        ensures stopped { IfErr result (λ stopped. Runs in_turn (take (length stopped.answers.items) steps.now) stopped.answers.items self.old self.new) }
        ensures headline { IfOk result (λ answers. (m : Machine) → Agrees self.old m → HasRun in_turn steps.now answers.items self.old self.new m) }
        ensures headline_so_far { IfErr result (λ stopped. (m : Machine) → Agrees self.old m →
            HasRun in_turn (take (length stopped.answers.items) steps.now) stopped.answers.items self.old self.new m) }
        // No session breaks.
        ensures no_fault { IfOk result (λ answers. All (λ given. breaks_off given ≡ false) answers.items) }
        ensures no_fault_so_far { IfErr result (λ stopped. All (λ given. breaks_off given ≡ false) stopped.answers.items) }
        ensures bounded { IfOk result (λ answers. IsOpenWorld self.old → All (λ step. is_carriage step ≡ true) steps.now →
            IsBoundedRun steps.now answers.items self.old self.new) }
        ensures bounded_so_far { IfErr result (λ stopped. let made = take (length stopped.answers.items) steps.now in
            IsOpenWorld self.old → All (λ step. is_carriage step ≡ true) made → IsBoundedRun made stopped.answers.items self.old self.new) }
    {
        self.pipes.run(steps)
    }

    /// A run from two new sessions: the steps one after another, their answers, and after which of them the
    /// world was quiet. The configs are the client's and the server's.
    ///
    /// At every moment, what one side read of a stream is a beginning of what the other wrote to it. Once a read was
    /// answered with the end it is all of it, and the other finished before (clause `face`). What was written and
    /// not read is never more than the reader's window (clause `windows`). The answers are those of a run of
    /// the queue machine, which has two queues a stream and no frames, and is still wherever `quiet` says so
    /// (clause `queues`). So it is however the steps cut the bytes and wherever they stop them, with no premise.
    ///
    /// Once the world is quiet, all that was written is there, also after the reads and accepts that follow. A read gives
    /// the first of what was written and not yet read; where nothing is left, the end if the other finished, and else
    /// that there is nothing yet. It is refused only where one of the sides hasn't the stream: it didn't open or accept
    /// it, or it reset it or gave it up (clause `arrives`). Where an accept finds no stream, its side was given each one
    /// that the other has, if it had no cause to refuse one: it said no go away, no memory was wanting, and at most 256
    /// were opened (clause `accepts`). Whatever it had, it was given each one of which the other's read isn't refused
    /// (clause `offers`). A write right after the quiet step takes all its bytes, or so many that more than half of the
    /// reader's window is unread (clause `writes`).
    ///
    /// `Refused` comes as of `World::new`. `Stopped` comes where there was no memory of the world's own for a
    /// step: that one did nothing, and the same holds of the steps before it.
    pub fn play(
        alloc: Global,
        config_a: Config,
        config_b: Config,
        steps: &[Step],
    ) -> Result<Played, PlayFault>
        ensures face { IfOk result (λ played. AllDeliverInOrder steps.now played.answers.items) }
        ensures arrives { IfOk result (λ played. AllArrive steps.now played.answers.items played.quiet.items) }
        ensures accepts { IfOk result (λ played. AllAreGiven steps.now played.answers.items played.quiet.items) }
        ensures offers { IfOk result (λ played. AllAreOffered steps.now played.answers.items played.quiet.items) }
        ensures writes { IfOk result (λ played. AllTakeEnough config_a.window config_b.window steps.now played.answers.items played.quiet.items) }
        ensures windows { IfOk result (λ played. FitWindows config_a.window config_b.window steps.now played.answers.items) }
        ensures queues { IfOk result (λ played. (m : Machine) × StillRun steps.now played.answers.items played.quiet.items (machine_of config_a config_b) m) }
        // It was done by two sessions and the pipes between them. No other clause names these.
        ensures real { IfOk result (λ played. QuietRuns in_turn steps.now played.answers.items played.quiet.items (world_of config_a config_b) played.world) }
        ensures made { IfOk result (λ played. (new_fault Client config_a ≡ None) × (new_fault Server config_b ≡ None)) }
        ensures refused { IfErr result (λ fault. IsPlayFault config_a config_b fault) }
        ensures before { IfErr result (WhereStopped (λ played. length played.answers.items < length steps.now)) }
        ensures face_so_far { IfErr result (WhereStopped (λ played. AllDeliverInOrder (take (length played.answers.items) steps.now) played.answers.items)) }
        ensures arrives_so_far { IfErr result (WhereStopped (λ played.
            AllArrive (take (length played.answers.items) steps.now) played.answers.items played.quiet.items)) }
        ensures accepts_so_far { IfErr result (WhereStopped (λ played.
            AllAreGiven (take (length played.answers.items) steps.now) played.answers.items played.quiet.items)) }
        ensures offers_so_far { IfErr result (WhereStopped (λ played.
            AllAreOffered (take (length played.answers.items) steps.now) played.answers.items played.quiet.items)) }
        ensures writes_so_far { IfErr result (WhereStopped (λ played.
            AllTakeEnough config_a.window config_b.window (take (length played.answers.items) steps.now) played.answers.items played.quiet.items)) }
        ensures windows_so_far { IfErr result (WhereStopped (λ played.
            FitWindows config_a.window config_b.window (take (length played.answers.items) steps.now) played.answers.items)) }
        ensures queues_so_far { IfErr result (WhereStopped (λ played.
            (m : Machine) × StillRun (take (length played.answers.items) steps.now) played.answers.items played.quiet.items (machine_of config_a config_b) m)) }
        ensures real_so_far { IfErr result (WhereStopped (λ played.
            QuietRuns in_turn (take (length played.answers.items) steps.now) played.answers.items played.quiet.items (world_of config_a config_b) played.world)) }
    {
        let world = match World::new(alloc, config_a, config_b) {
            Ok(world) => world,
            Err(fault) => return Err(PlayFault::Refused(fault)),
        };
        let mut played = Played::new(alloc, world);
        for step in steps {
            match played.play_step(step) {
                Ok(()) => {}
                Err(refused) => return Err(PlayFault::Stopped(played, refused)),
            }
        }
        Ok(played)
    }

    /// Whether neither session has anything due, both pipes are empty, nothing was stopped, closed or broken,
    /// and neither input was ended.
    pub fn quiet(&self) -> bool
        ensures value { result ≡ is_quiet self.now }
        // A queue machine that agrees with a quiet world is still.
        ensures still { result ≡ true → (m : Machine) → Agrees self.now m → IsStillMachine m }
        // Where nothing was stopped, ended, closed or broken, a world that isn't quiet can carry a byte on.
        ensures goes_on { IsOpenWorld self.now → result ≡ false →
            (step : TheStep) × (given : TheAnswer) × (v : TheWorld) × Steps in_turn step given self.now v × (carries_bytes step given ≡ true) }
    {
        self.pipes.is_quiet()
    }

    /// Whether nothing was stopped, ended, closed or broken.
    pub fn is_open(&self) -> bool
        ensures { IsTrue result ↔ IsOpenWorld self.now }
    {
        self.pipes.is_open()
    }

    /// Emits and delivers until the world is quiet, and answers whether it is: not where something was stopped,
    /// ended, closed or broken, which is left as it is. It answers too how many streams were refused on the way because
    /// there was no memory for them. `RefusedAllocation` where there is no memory for an emission: then the steps before
    /// it were made, and a later call goes on from there.
    ///
    /// It ends, since each of its steps carries a byte on. No frame is made or lost on the way that
    /// emissions and deliveries by hand would not make or lose.
    pub fn drive(&mut self) -> Result<Driven, RefusedAllocation>
        ensures quiet { IfOk result (λ driven. driven.quiet ≡ true → is_quiet self.new ≡ true) }
        ensures open { IsOpenWorld self.old → IfOk result (λ driven. driven.quiet ≡ true) }
        ensures left_alone { IfOk result (λ driven. driven.quiet ≡ false → self.new ≡ self.old) }
        // Nothing is on its way in the queues then: a machine that agrees with the world is still.
        ensures still { IfOk result (λ driven. driven.quiet ≡ true → (m : Machine) → Agrees self.new m → IsStillMachine m) }
        // Whatever the result, emissions and deliveries alone were made. So many streams were refused for lack of memory.
        ensures carried { IfOk result (λ driven. IsCarriedOn driven.no_memory self.old self.new) }
        ensures carried_so_far { IfErr result (λ _. (no_memory : ℕ) × IsCarriedOn no_memory self.old self.new) }
    {
        let mut no_memory = RefusalCount::zero();
        if !self.pipes.is_open() {
            return Ok(Driven {
                quiet: false,
                no_memory,
            });
        }
        while let Some(step) = self.due_carriage() {
            let answer = self.step(&step)?;
            no_memory.add_all(refused_by(&answer));
        }
        Ok(Driven {
            quiet: true,
            no_memory,
        })
    }

    /// A step that carries bytes on: a delivery of all that is on its way to a side where nothing is due, or else an
    /// emission where something is. Deliveries go first, so that little is on its way at a time.
    fn due_carriage(&self) -> Option<Step>
        ensures some { IfSome result (λ step. IsDueCarriage step self.now) }
        ensures no_emission { IfNone result ((is_ready self.now.a ≡ false) × (is_ready self.now.b ≡ false)) }
        ensures no_delivery { IfNone result ((self.now.ab.bytes ≡ []) × (self.now.ba.bytes ≡ [])) }
    {
        let ab = self.pipe(Direction::AB).len();
        if ab > 0 && !self.due(Side::B) {
            return Some(Step::Deliver(Direction::AB, ab));
        }
        let ba = self.pipe(Direction::BA).len();
        if ba > 0 && !self.due(Side::A) {
            return Some(Step::Deliver(Direction::BA, ba));
        }
        if self.due(Side::B) {
            return Some(Step::Emit(Side::B, ROOM));
        }
        if self.due(Side::A) {
            return Some(Step::Emit(Side::A, ROOM));
        }
        None
    }

    /// Whether an emission of this side into a buffer that isn't empty gives at least one byte.
    pub fn due(&self, side: Side) -> bool
        ensures { result ≡ is_ready (session_of side self.now) }
    {
        self.pipes.due(side)
    }

    /// The bytes that are on their way in this direction.
    pub fn pipe(&self, direction: Direction) -> &[u8]
        ensures { result.now ≡ (pipe_of direction self.now).bytes }
    {
        self.pipes.pipe(direction)
    }
}
