//! How connections come to a tunnel and leave it.

ghost use Rattle.std.specs.Prelude.{ℕ, List, ◌≡◌, ◌⊎◌, ◌∷◌, true, false, option_map, IfOk, IfErr, IfNone, IfSome, OnOk, Option, None, Some, Bool};
ghost use Rattle.ymx_machine.specs.declared.types.Call.TheVariants as call;
ghost use Rattle.ymx_machine.specs.declared.types.Reply.TheVariants as reply;
ghost use Rattle.ymx_model.specs.declared.types.Event.TheVariants as event;
ghost use Rattle.ymx_model.specs.session.Emissions.{in_turn};
ghost use Rattle.ymx_model.specs.session.Histories.{Gives};
ghost use Rattle.ymx_model.specs.session.Sessions.{is_running};
ghost use Rattle.ymx_engine.specs.Joins.{Told, Joins, IsJoined, IsOpened, IsAccepted, IsUnjoined, IsNotOpened, IsNotAccepted, Leaves, Rejects};
ghost use Rattle.ymx_engine.specs.Engines.{KeepsWire};
ghost use Rattle.ymx_engine.specs.Refusals.{GivesUp, IsForgotten, OffersNone};
ghost use Rattle.ymx_engine.specs.Runs.{Runs};
ghost use Rattle.ymx_engine.specs.Turns.{Connection as ConnectionValue, connection_of, look, SameConnections};
ghost use Rattle.ymx_engine.specs.Directions.{is_over};

use crate::device::Device;
use crate::tunnel::Tunnel;
use ymx_memory::RefusedAllocation;
use ymx_model::CallFault;

/// Who tells when a device may be used.
pub trait Registry<D: Device> {
    /// What it was asked and answered, the newest first, if it can tell.
    ghost told: { Self → Option (List (ℕ × Bool)) };

    /// From now on events of this device come under its stream's id. False where that can't be had. No byte moves.
    fn register(&mut self, id: u32, device: &mut D) -> bool
        ensures seen { D.seen device.new ≡ D.seen device.old }
        ensures told { told self.new ≡ option_map (λ l. (id, result) ∷ l) (told self.old) };
}

/// Why a device was not joined to a stream.
#[derive(Drop)]
pub enum NotJoined {
    /// The session gave no stream, and is as it was. `OutOfMemory` comes also where there is no memory to keep the
    /// connection.
    BySession(CallFault),
    /// Nobody tells when the device may be used. Its stream was reset.
    Unregistered,
    /// There was no memory to keep the connection. The stream that was offered was reset.
    OutOfMemory(RefusedAllocation),
    /// The stream has a device, and was forgotten. This never is, as the session gives no id twice.
    Twice,
}

impl<D: Device + Drop, W: Device + Drop> Tunnel<D, W> {
    /// Opens a stream for a device that came, and returns its id. Where the device can't be registered the stream is reset
    /// and forgotten; where there is no memory to keep it none is opened.
    pub fn open<G: Registry<D>>(&mut self, device: D, registry: &mut G) -> Result<u32, NotJoined>
        ensures runs { Runs self.old self.new }
        // A stream was opened, and the device joined it, of which the registry was told.
        ensures joined { IfOk result (λ id. IsJoined IsOpened id (D.seen device) self.old self.new (G.told registry.old) (G.told registry.new)) }
        ensures refused { IfErr result (λ why. IsNotOpened why self.old self.new (G.told registry.old) (G.told registry.new)) }
        ensures wire { self.new.wire ≡ self.old.wire }
        ensures memory { self.new.no_memory ≡ self.old.no_memory }
    {
        if let Err(refused) = self.connections.reserve() {
            return Err(NotJoined::BySession(CallFault::OutOfMemory(refused)));
        }
        match self.session.open() {
            Ok(id) => self.join(id, device, registry),
            Err(fault) => Err(NotJoined::BySession(fault)),
        }
    }

    /// Takes the offered stream that came first for this device, and returns its id. `None` where none waits, and where
    /// the session refuses; then the device is dropped. Where it can't be registered or kept, the stream is reset and
    /// forgotten, so that it doesn't wait on.
    pub fn accept<G: Registry<D>>(
        &mut self,
        device: D,
        registry: &mut G,
    ) -> Result<Option<u32>, NotJoined>
        ensures runs { Runs self.old self.new }
        // The stream that was offered first was accepted, and the device joined it, of which the registry was told.
        ensures joined { IfOk result (λ offered. IfSome offered (λ id. IsJoined IsAccepted id (D.seen device) self.old self.new (G.told registry.old) (G.told registry.new))) }
        ensures none { IfOk result (λ offered. IfNone offered (OffersNone self.old.engine.session self.new.engine.session × SameConnections self.old.connections self.new.connections × (G.told registry.new ≡ G.told registry.old))) }
        ensures refused { IfErr result (λ why. IsNotAccepted why self.old self.new (G.told registry.old) (G.told registry.new)) }
        ensures wire { self.new.wire ≡ self.old.wire }
        ensures memory { self.new.no_memory ≡ self.old.no_memory }
    {
        if let Err(refused) = self.connections.reserve() {
            self.reject();
            return Err(NotJoined::OutOfMemory(refused));
        }
        match self.take_offered() {
            Some(id) => Ok(Some(self.join(id, device, registry)?)),
            None => Ok(None),
        }
    }

    /// Takes the offered stream that came first, for which there is no device: it is reset and forgotten. Whether there
    /// was one. No memory is needed.
    pub fn reject(&mut self) -> bool
        ensures runs { Runs self.old self.new }
        ensures connections { self.new.connections ≡ self.old.connections }
        ensures wire { self.new.wire ≡ self.old.wire }
        ensures over { self.new.is_wire_over ≡ self.old.is_wire_over }
        ensures memory { self.new.no_memory ≡ self.old.no_memory }
        ensures bytes { KeepsWire self.old.engine self.new.engine }
        ensures none { result ≡ false → OffersNone self.old.engine.session self.new.engine.session }
        ensures some { result ≡ true → Rejects self.old.engine.session self.new.engine.session }
    {
        let Some(id) = self.take_offered() else {
            return false;
        };
        // no id is given twice, so this never is
        if self.connections.contains(id) {
            self.leave(id);
        } else {
            self.drop_stream(id);
        }
        true
    }

    /// Lets go of a connection's device, and forgets its stream. `None` where the stream has no device.
    pub fn forget(&mut self, id: u32) -> Option<D>
        // Nothing of it is left to move.
        requires over { (l : ConnectionValue) → connection_of id self.old.connections ≡ Some l → (is_over l.directions ≡ true) ⊎ (is_running self.old.engine.session.status ≡ false) }
        ensures runs { Runs self.old self.new }
        ensures given { option_map D.seen result ≡ look id self.old.connections }
        ensures gone { Leaves id self.old self.new }
        ensures status { self.new.engine.session.status ≡ self.old.engine.session.status }
        ensures memory { self.new.no_memory ≡ self.old.no_memory }
    {
        let device = self.connections.remove(id);
        let _ = self.session.forget(id);
        device
    }

    /// Joins a device to a stream, and returns its id.
    fn join<G: Registry<D>>(
        &mut self,
        id: u32,
        device: D,
        registry: &mut G,
    ) -> Result<u32, NotJoined>
        requires room { self.old.connections.has_room ≡ true }
        requires place { self.old.connections.has_place ≡ true }
        ensures id { IfOk result (λ joined. joined ≡ id) }
        ensures joined { OnOk result (Joins id (D.seen device) self.old self.new) }
        ensures registered { OnOk result (Told id true (G.told registry.old) (G.told registry.new)) }
        ensures refused { IfErr result (λ why. IsUnjoined id why self.old self.new (G.told registry.old) (G.told registry.new)) }
        ensures wire { self.new.wire ≡ self.old.wire }
        ensures memory { self.new.no_memory ≡ self.old.no_memory }
    {
        // no id is given twice, so this never is
        if self.connections.contains(id) {
            self.leave(id);
            return Err(NotJoined::Twice);
        }
        let mut device = device;
        if !registry.register(id, &mut device) {
            self.drop_stream(id);
            return Err(NotJoined::Unregistered);
        }
        self.connections.add(id, device);
        Ok(id)
    }

    /// Takes the offered stream that came first. `None` where the session offers none, or refuses.
    fn take_offered(&mut self) -> Option<u32>
        ensures same { self.new ≡ record self.old { engine = record self.old.engine { session = self.new.engine.session } } }
        ensures accepted { IfSome result (λ id. IsAccepted id self.old.engine.session self.new.engine.session) }
        ensures none { IfNone result (OffersNone self.old.engine.session self.new.engine.session) }
    {
        match self.session.accept() {
            Ok(offered) => offered,
            Err(_) => None,
        }
    }

    /// Forgets a stream, and lets its device be.
    fn leave(&mut self, id: u32)
        ensures same { self.new ≡ record self.old { engine = record self.old.engine { session = self.new.engine.session } } }
        ensures forgotten { IsForgotten id self.old.engine.session self.new.engine.session }
    {
        let _ = self.session.forget(id);
    }

    /// Resets a stream and forgets it.
    fn drop_stream(&mut self, id: u32)
        ensures same { self.new ≡ record self.old { engine = record self.old.engine { session = self.new.engine.session } } }
        ensures given_up { GivesUp id self.old.engine.session self.new.engine.session }
    {
        let _ = self.session.reset(id);
        let _ = self.session.forget(id);
    }
}
