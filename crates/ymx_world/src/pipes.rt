//! Two sessions and the pipes between them.

ghost use Rattle.std.specs.Prelude.{◌≡◌, ◌<◌, length, take, IfOk, IfErr, OnErr};
ghost use Rattle.ymx_machine.specs.declared.types.Answer.TheVariants as answer;
ghost use Rattle.ymx_machine.specs.declared.types.Step.TheVariants as step;
ghost use Rattle.ymx_model.specs.session.Emissions.{in_turn, is_ready};
ghost use Rattle.ymx_model.specs.world.Worlds.{Steps, Runs, new_pipe, is_quiet};
ghost use Rattle.ymx_world.specs.Acts.{session_of, pipe_of};
ghost use Rattle.ymx_world.specs.Driven.{is_open_world};

use crate::calls::make_call;
use crate::pipe::Pipe;
use crate::stopped::Stopped;
use std::alloc::Global;
use std::marker::Model;
use ymx_memory::RefusedAllocation;
use ymx_model::{Answer, Direction, Fed, Side, Status, Step};
use ymx_session::Session;

/// The client A and the server B, and a pipe from each to the other. A contract sees the record `World` of
/// `ymx_model`.
#[derive(Drop)]
pub(crate) struct SessionPipes {
    alloc: Global,
    a: Session,
    b: Session,
    ab: Pipe,
    ba: Pipe,
    /// What emissions go into on their way to a pipe: as long as the longest so far.
    buffer: Vec<u8>,
}

impl Model for SessionPipes {
    ghost use Rattle.ymx_model.specs.world.Worlds.{World as WorldValue};

    ghost Value = { WorldValue };

    ghost view = { λ w. record { a = w.a; b = w.b; ab = w.ab; ba = w.ba } };
}

impl SessionPipes {
    /// Two sessions with nothing on its way between them.
    pub(crate) fn new(alloc: Global, a: Session, b: Session) -> SessionPipes
        ensures { result ≡ record { a = a; b = b; ab = new_pipe; ba = new_pipe } }
    {
        SessionPipes {
            alloc,
            a,
            b,
            ab: Pipe::new(alloc),
            ba: Pipe::new(alloc),
            buffer: Vec::new(alloc),
        }
    }

    /// One step. Where there is no memory for it nothing is done.
    pub(crate) fn step(&mut self, step: &Step) -> Result<Answer, RefusedAllocation>
        ensures steps { IfOk result (λ given. Steps in_turn step.now given self.old self.new) }
        ensures same { OnErr result (self.new ≡ self.old) }
    {
        match step {
            Step::At(Side::A, call) => make_call(self.alloc, &mut self.a, call),
            Step::At(Side::B, call) => make_call(self.alloc, &mut self.b, call),
            Step::Emit(Side::A, room) => {
                let count = self.ab.emit_from(&mut self.a, &mut self.buffer, *room)?;
                Ok(Answer::Emitted(count))
            }
            Step::Emit(Side::B, room) => {
                let count = self.ba.emit_from(&mut self.b, &mut self.buffer, *room)?;
                Ok(Answer::Emitted(count))
            }
            Step::Deliver(direction, count) => Ok(Answer::Fed(self.deliver(*direction, *count))),
            Step::Stop(Direction::AB) => {
                self.ab.stop();
                Ok(Answer::Done)
            }
            Step::Stop(Direction::BA) => {
                self.ba.stop();
                Ok(Answer::Done)
            }
            Step::End(Direction::AB) => Ok(self.ab.end_at(&mut self.b)),
            Step::End(Direction::BA) => Ok(self.ba.end_at(&mut self.a)),
        }
    }

    /// Some steps, one after another, and their answers, or those before the step for which there was no
    /// memory.
    pub(crate) fn run(&mut self, steps: &[Step]) -> Result<Vec<Answer>, Stopped>
        ensures runs { IfOk result (λ answers. Runs in_turn steps.now answers.items self.old self.new) }
        ensures before { IfErr result (λ stopped. length stopped.answers.items < length steps.now) }
        ensures stopped { IfErr result (λ stopped. Runs in_turn (take (length stopped.answers.items) steps.now) stopped.answers.items self.old self.new) }
    {
        let mut answers = Vec::new(self.alloc);
        for step in steps {
            if let Err(refused) = ymx_memory::reserve(&mut answers, 1) {
                return Err(Stopped { answers, refused });
            }
            match self.step(step) {
                Ok(answer) => answers.push_reserved(answer),
                Err(refused) => return Err(Stopped { answers, refused }),
            }
        }
        Ok(answers)
    }

    /// A delivery of the first bytes in a direction.
    fn deliver(&mut self, direction: Direction, count: usize) -> Fed
        ensures { Steps in_turn (step.Deliver direction count) (answer.Fed result) self.old self.new }
    {
        match direction {
            Direction::AB => self.ab.deliver_to(&mut self.b, count),
            Direction::BA => self.ba.deliver_to(&mut self.a, count),
        }
    }

    /// Whether nothing is due, both pipes are empty, and nothing was stopped, closed, broken or ended.
    pub(crate) fn is_quiet(&self) -> bool
        ensures { result ≡ is_quiet self.now }
    {
        !self.a.due()
            && !self.b.due()
            && matches!(self.a.status(), Status::Running)
            && matches!(self.b.status(), Status::Running)
            && self.ab.is_quiet()
            && self.ba.is_quiet()
    }

    /// Whether nothing was stopped, ended, closed or broken.
    pub(crate) fn is_open(&self) -> bool
        ensures { result ≡ is_open_world self.now }
    {
        matches!(self.a.status(), Status::Running)
            && matches!(self.b.status(), Status::Running)
            && self.ab.is_open()
            && self.ba.is_open()
    }

    /// Whether the session of a side has something due.
    pub(crate) fn due(&self, side: Side) -> bool
        ensures { result ≡ is_ready (session_of side self.now) }
    {
        match side {
            Side::A => self.a.due(),
            Side::B => self.b.due(),
        }
    }

    /// The bytes on their way in a direction.
    pub(crate) fn pipe(&self, direction: Direction) -> &[u8]
        ensures { result.now ≡ (pipe_of direction self.now).bytes }
    {
        match direction {
            Direction::AB => self.ab.bytes(),
            Direction::BA => self.ba.bytes(),
        }
    }
}
