//! Any event of a session, by one call.

ghost use Rattle.std.specs.Prelude.{◌≡◌, ◌≤◌, length, drop};
ghost use Rattle.ymx_model.specs.declared.types.Event.TheVariants as event;
ghost use Rattle.ymx_model.specs.session.Emissions.{in_turn};
ghost use Rattle.ymx_model.specs.session.Histories.{Gives};
ghost use Rattle.ymx_session.specs.Applied.{IsSizeOf, IsSizeOfCall, IsReplyTo, in_buffer, counted};

use crate::replies::{accepted, done, opened, opened_with, pinged, ponged, read, wrote};
use crate::session::Session;
use ymx_model::{Call, Event, Lent, Reply};

impl Session {
    /// Does what `event` says, by the call of its name, and returns what that call answers, as a reply that counts its
    /// bytes: those of a read and of an emission stand at the front of `buffer`, which has the size that the event
    /// names. The rest of `buffer` stays as it was.
    ///
    /// Only a call can be refused, with the refusals of its name.
    pub fn apply(&mut self, event: &Event<Lent<'_>>, buffer: &mut [u8]) -> Reply<usize>
        requires { IsSizeOf event.now (length buffer.old) }
        ensures event { Gives in_turn self.old event.now (in_buffer buffer.new result) self.new }
        ensures answer { IsReplyTo event.now result }
        ensures within { counted result ≤ length buffer.old }
        ensures rest { drop (counted result) buffer.new ≡ drop (counted result) buffer.old }
    {
        match event {
            Event::Call(call) => self.apply_call(call, buffer),
            Event::Feed(bytes) => Reply::Fed(self.feed(bytes.as_slice())),
            Event::FeedEnd => {
                self.feed_end();
                Reply::Done
            }
            Event::Emit(_) => Reply::Emitted(self.emit(buffer)),
        }
    }

    /// Makes a call, as `apply` does.
    fn apply_call(&mut self, call: &Call<Lent<'_>>, buffer: &mut [u8]) -> Reply<usize>
        requires { IsSizeOfCall call.now (length buffer.old) }
        ensures event { Gives in_turn self.old (event.Call call.now) (in_buffer buffer.new result) self.new }
        ensures answer { IsReplyTo (event.Call call.now) result }
        ensures within { counted result ≤ length buffer.old }
        ensures rest { drop (counted result) buffer.new ≡ drop (counted result) buffer.old }
    {
        match call {
            Call::Open => opened(self.open()),
            Call::OpenWith(bytes) => opened_with(self.open_with(bytes.as_slice())),
            Call::Accept => accepted(self.accept()),
            Call::Write(id, bytes) => wrote(self.write(*id, bytes.as_slice())),
            Call::Read(id, _) => read(self.read(*id, buffer)),
            Call::Finish(id) => done(self.finish(*id)),
            Call::Reset(id) => done(self.reset(*id)),
            Call::Forget(id) => done(self.forget(*id)),
            Call::Ping => pinged(self.ping()),
            Call::Ponged(number) => ponged(self.ponged(*number)),
            Call::GoAway => done(self.go_away()),
            Call::Close => {
                self.close();
                Reply::Done
            }
        }
    }
}
