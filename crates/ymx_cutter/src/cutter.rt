//! Cuts a stream of bytes into frames.

ghost use Rattle.std.specs.Prelude.{◌≡◌, ℕ, List, ◌+◌, ◌≤◌, [], ◌++◌, length, take, min};
ghost use Rattle.ymx_header.specs.Frames.{fault_of as first_fault, payload_length};
ghost use Rattle.ymx_cutter.specs.Cutters.{item_of, seen_after};
ghost use Rattle.ymx_cutter.specs.Views.{seen_of, IsBegunWithin};

use crate::header_bytes::HeaderBytes;
use crate::item::Item;
use std::marker::Model;
use ymx_header::{Fault, HEADER_LENGTH, Header, check};

/// What has come of the frame begun.
#[derive(Drop)]
enum Begun {
    Header(HeaderBytes),
    Payload { came: u32, missing: u32 },
    Broken(Fault),
}

/// Cuts the bytes of a session into frames, in whatever pieces they come (framing).
///
/// It keeps at most eleven bytes of a header, and no payload. After a fault it takes no more bytes.
#[derive(Drop)]
pub struct Cutter {
    limit: u32,
    begun: Begun,
}

impl Model for Cutter {
    ghost use Rattle.ymx_cutter.specs.Cutters.{Cutting};

    ghost Value = { Cutting };

    ghost use Rattle.ymx_cutter.specs.Views.{seen_of, IsBegunWithin};

    ghost view = { λ c. record { limit = c.limit; seen = seen_of c.begun } };

    ghost invariant = { λ c. IsBegunWithin c.begun };
}

impl Cutter {
    ghost use Rattle.ymx_cutter.specs.Cutters.{begun_of, missing_of, next_of, IsUnfinished, TakesFor, Gathers};
    ghost use Rattle.ymx_cutter.specs.Cutters.Seen.{InHeader, Broken};
    ghost use Rattle.ymx_cutter.specs.Bytewise.{seen_in, events_in, item_events};
    ghost use Rattle.ymx_header.specs.declared.fault.Fault.{Fault as FaultValue};
    ghost use Rattle.ymx_cutter.specs.Gathered.{Gathered, gathers};

    /// A cutter between two frames, which takes Data frames of at most `limit` bytes of payload.
    pub fn new(limit: u32) -> Cutter
        ensures { result ≡ record { limit = limit; seen = InHeader [] } }
    {
        Cutter {
            limit,
            begun: Begun::Header(HeaderBytes::new()),
        }
    }

    /// Forgets what has come of the frame begun, or the fault: the next byte begins a frame. The
    /// limit stays.
    pub fn restart(&mut self)
        ensures { self.new ≡ record { limit = self.old.limit; seen = InHeader [] } }
    {
        self.begun = Begun::Header(HeaderBytes::new());
    }

    /// The longest payload of a Data frame that it takes, in bytes.
    pub fn limit(&self) -> u32
        ensures { result ≡ self.now.limit }
    {
        self.limit
    }

    /// The bytes of the frame begun, its header included: 0 between frames. After a fault it is 12,
    /// since the bad header stays begun.
    pub fn begun(&self) -> usize
        ensures { result ≡ begun_of self.now.seen }
    {
        match &self.begun {
            Begun::Header(bytes) => bytes.len(),
            Begun::Payload { came, .. } => HEADER_LENGTH + *came as usize,
            Begun::Broken(_) => HEADER_LENGTH,
        }
    }

    /// How many bytes of the payload begun are missing: at least one, or 0 in a header and after a fault.
    pub fn missing(&self) -> u32
        ensures { result ≡ missing_of self.now.seen }
    {
        match self.begun {
            Begun::Header(_) | Begun::Broken(_) => 0,
            Begun::Payload { missing, .. } => missing,
        }
    }

    /// Takes the first bytes of the input, and answers how many and what they make.
    ///
    /// `Head` once a header is whole, which ends the bytes taken; `Piece` for bytes of payload,
    /// which are the bytes taken; `Fault` once a header is whole and bad, and from then on at each
    /// call, with no bytes taken. `None` only when all of the input was taken inside a header, or
    /// there is none.
    pub fn next(&mut self, input: &[u8]) -> (usize, Option<Item>)
        // The call, as a function of what was seen.
        ensures cut { next_of self.old.limit self.old.seen input.now ≡ record { taken = result.0; item = result.1; seen = self.new.seen } }
        ensures limit { self.new.limit ≡ self.old.limit }

        // Before the call and after it the header or the payload begun isn't whole.
        ensures was_unfinished { IsUnfinished self.old.seen }
        ensures unfinished { IsUnfinished self.new.seen }

        // What a caller goes by.
        ensures within { result.0 ≤ length input.now }
        ensures takes { TakesFor input.now result.0 result.1 }
        ensures fault { (fault : FaultValue) → result.1 ≡ Some (Item.Fault fault) → self.new.seen ≡ Broken fault }
        ensures repeated { (fault : FaultValue) → self.old.seen ≡ Broken fault →
            (result.0 ≡ 0) × (result.1 ≡ Some (Item.Fault fault)) × (self.new.seen ≡ Broken fault) }

        // If the text so far is the frames gathered and what was seen of the next, it still is,
        // with the bytes taken and with what the item adds.
        ensures reads { (text : List ℕ) (g : Gathered) → Gathers self.old.limit text g self.old.seen →
            Gathers self.old.limit (text ++ take result.0 input.now) (gathers g (take result.0 input.now) result.1) self.new.seen }

        // It is what the bytes taken do one after the other.
        ensures seen { seen_in self.old.limit self.old.seen (take result.0 input.now) ≡ self.new.seen }
        ensures events { events_in self.old.limit self.old.seen (take result.0 input.now) ≡ item_events result.1 (take result.0 input.now) }
    {
        self.advance(input)
    }

    /// The same, by cases on what is begun.
    fn advance(&mut self, input: &[u8]) -> (usize, Option<Item>)
        ensures cut { next_of self.old.limit self.old.seen input.now ≡ record { taken = result.0; item = result.1; seen = self.new.seen } }
        ensures limit { self.new.limit ≡ self.old.limit }
        ensures within { result.0 ≤ length input.now }
        ensures was_unfinished { IsUnfinished self.old.seen }
    {
        match &mut self.begun {
            Begun::Header(bytes) => match bytes.add(input) {
                (taken, None) => (taken, None),
                (taken, Some(header)) => {
                    let (item, begun) = after_header(self.limit, header);
                    self.begun = begun;
                    (taken, Some(item))
                }
            },
            Begun::Payload { came, missing } => {
                let len = input.len().min(*missing as usize);
                if len == 0 {
                    return (0, None);
                }
                let last = len == *missing as usize;
                if last {
                    self.restart();
                } else {
                    *came += len as u32;
                    *missing -= len as u32;
                }
                (len, Some(Item::Piece { len, last }))
            }
            Begun::Broken(fault) => (0, Some(Item::Fault(*fault))),
        }
    }
}

/// The first fault of a header by itself: `BadVersion`, `UnknownType`, or `WindowExceeded` for Data
/// longer than the limit.
fn fault_of(limit: u32, header: &Header) -> Option<Fault>
    ensures { result ≡ first_fault limit header.now }
{
    match check(header) {
        Err(fault) => Some(fault),
        Ok(_) if header.payload_len() > limit => Some(Fault::WindowExceeded),
        Ok(_) => None,
    }
}

/// What a header that is whole makes, and what is begun after it.
fn after_header(limit: u32, header: Header) -> (Item, Begun)
    ensures item { result.0 ≡ item_of (first_fault limit header) header }
    ensures seen { seen_of result.1 ≡ seen_after (first_fault limit header) (payload_length header) }
    ensures within { IsBegunWithin result.1 }
{
    if let Some(fault) = fault_of(limit, &header) {
        return (Item::Fault(fault), Begun::Broken(fault));
    }
    let begun = match header.payload_len() {
        0 => Begun::Header(HeaderBytes::new()),
        missing => Begun::Payload { came: 0, missing },
    };
    (Item::Head(header), begun)
}
