//! What goes over the wire of a tunnel.

ghost use Rattle.std.specs.Prelude.{◌≡◌, ◌<◌, [], length, true};
ghost use Rattle.ymx_engine.specs.Devices.{is_push_failure};
ghost use Rattle.ymx_engine.specs.Runs.{Runs, Stays, Rests};
ghost use Rattle.ymx_engine.specs.Served.{Serving};
ghost use Rattle.ymx_engine.specs.Steps.{WritesOnce};
ghost use Rattle.ymx_engine.specs.Turns.{KeepsConnections};
ghost use Rattle.ymx_engine.specs.Wires.{GivesOut, HandlesOut};
ghost use Rattle.ymx_engine.specs.Work.{Writes};

use crate::device::{Device, Pushed};
use crate::sending::put_due;
use crate::tunnel::Tunnel;

impl<D: Device + Drop, W: Device + Drop> Tunnel<D, W> {
    /// Writes what is due to the wire, in at most four calls. If the wire fails the session is lost.
    pub fn flush(&mut self)
        ensures runs { Runs self.old self.new }
        ensures stays { Stays self.old self.new }
        ensures rests { Rests self.old self.new }
        // Where the wire may take bytes, and some wait or are due, it takes some. It takes all that wait, or may take none
        // now; and nobody is held back any more, unless bytes wait for it.
        ensures writes { Writes self.old self.new }
        ensures memory { self.new.no_memory ≡ self.old.no_memory }
    {
        'write: for turn in 0..4u64 {
            if !self.write_once() {
                return;
            }
        }
    }

    /// Writes to the wire once, where it may take bytes. Whether more may be written.
    fn write_once(&mut self) -> bool
        ensures { WritesOnce result self.old self.new }
    {
        if !self.wire.may_push() {
            return false;
        }
        put_due(&mut self.session, &mut self.outgoing);
        if self.outgoing.waiting().is_empty() {
            self.connections.release();
            return false;
        }
        self.push_wire()
    }

    /// Writes what waits to the wire once. Whether more may be written.
    fn push_wire(&mut self) -> bool
        requires some { 0 < length self.old.engine.outgoing }
        requires may { self.old.wire.marks.may_push ≡ true }
        ensures { WritesOnce result self.old self.new }
    {
        let pushed = self.give_to_wire();
        self.on_pushed(pushed);
        self.release_if_sent();
        self.wire.may_push()
    }

    /// Calls the wire with what waits. What it took waits no more.
    fn give_to_wire(&mut self) -> Pushed
        ensures gave { GivesOut result self.old.engine self.new.engine self.old.wire self.new.wire }
        ensures memory { self.new.no_memory ≡ self.old.no_memory }
        ensures connections { self.new.connections ≡ self.old.connections }
    {
        let pushed = self.wire.push(self.outgoing.waiting());
        self.outgoing.drop_front(pushed.count());
        pushed
    }

    /// The wire answered this to a call with bytes. If it failed the session is lost.
    fn on_pushed(&mut self, pushed: Pushed)
        ensures heard { HandlesOut (is_push_failure pushed) self.old.engine self.new.engine }
        ensures waits { self.new.engine.outgoing ≡ self.old.engine.outgoing }
        ensures memory { self.new.no_memory ≡ self.old.no_memory }
        ensures wire { self.new.wire ≡ self.old.wire }
        ensures connections { KeepsConnections self.old.connections self.new.connections }
        ensures serves { Serving self.old → Serving self.new }
    {
        match pushed {
            Pushed::Took(_) | Pushed::NotNow => {}
            Pushed::Failed => self.lose(),
        }
    }

    /// Where nothing waits for the wire, those that were held back have their turns.
    fn release_if_sent(&mut self)
        ensures engine { self.new.engine ≡ self.old.engine }
        ensures wire { self.new.wire ≡ self.old.wire }
        ensures keeps { KeepsConnections self.old.connections self.new.connections }
        ensures memory { self.new.no_memory ≡ self.old.no_memory }
        ensures free { self.new.engine.outgoing ≡ [] → self.new.connections.held ≡ [] }
    {
        if self.outgoing.waiting().is_empty() {
            self.connections.release();
        }
    }
}
