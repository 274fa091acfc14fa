//! How the two directions of a connection stand.

ghost use Rattle.std.specs.Prelude.{◌≡◌};
ghost use Rattle.ymx_engine.specs.Directions.{is_open, is_over, may_pull, may_push, new_directions, broken_off};

use crate::device::Device;

/// One direction of a connection.
#[derive(Clone, Copy)]
pub enum Flow {
    /// Bytes may move.
    Open,
    /// Its end was passed on.
    Ended,
    /// It broke off.
    Broken,
}

impl Flow {
    /// Whether bytes may move.
    pub fn is_open(self) -> bool
        ensures { result ≡ is_open self }
    {
        match self {
            Flow::Open => true,
            Flow::Ended | Flow::Broken => false,
        }
    }
}

/// How both directions of a connection stand. It follows what happened on its stream.
#[derive(Clone, Copy)]
pub struct Directions {
    /// From the device to the stream.
    pub to_peer: Flow,
    /// From the stream to the device.
    pub from_peer: Flow,
    /// There was no memory for bytes that its device gave.
    pub lacked_memory: bool,
}

impl Directions {
    /// Both are open.
    pub(crate) fn new() -> Directions
        ensures { result ≡ new_directions }
    {
        Directions {
            to_peer: Flow::Open,
            from_peer: Flow::Open,
            lacked_memory: false,
        }
    }

    /// Whether bytes may go to the device now.
    pub(crate) fn may_push<D: Device>(&self, device: &D) -> bool
        ensures { result ≡ may_push self.now (D.seen device.now).marks }
    {
        device.may_push() && self.from_peer.is_open()
    }

    /// Whether bytes of the device may be asked for now.
    pub(crate) fn may_pull<D: Device>(&self, device: &D) -> bool
        ensures { result ≡ may_pull self.now (D.seen device.now).marks }
    {
        device.may_pull() && self.to_peer.is_open()
    }

    /// Those that are open break off.
    pub(crate) fn break_off(&mut self)
        ensures { self.new ≡ broken_off self.old }
    {
        if self.to_peer.is_open() {
            self.to_peer = Flow::Broken;
        }
        if self.from_peer.is_open() {
            self.from_peer = Flow::Broken;
        }
    }

    /// Whether neither is open.
    pub fn is_over(&self) -> bool
        ensures { result ≡ is_over self.now }
    {
        !self.to_peer.is_open() && !self.from_peer.is_open()
    }
}
