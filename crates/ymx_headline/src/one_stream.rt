//! Frames to machine: the law of one stream by itself. Two ends, with the frames under way between them, are
//! one stream of the queue machine, over both windows, all ends and all frames. The function does nothing: its
//! contract is the theorem. The statements are in `specs/stream/StreamLaws.antt`, the relation that they keep
//! in `specs/stream/OneStream.antt`.
ghost use Rattle.ymx_headline.specs.stream.StreamLaws.{Accepts, Begins, Calls, Comes, ComesInPieces, Flips, Loses, PayloadOver, QuietIsStill, ReleaseLaw, Sends, Showing};

/// A stream just opened is one of the machine, and both sides see the same one. Each answer of a call is one
/// that the machine may give, and what an end shows is what the machine has. A frame that goes out, with any
/// beginning of the unsent bytes, is no move of the machine. One that comes, whole or a beginning of its
/// payload, is moves that the machine allows; so is an end that goes, and a side that is lost changes nothing.
/// If nothing is due or under way, the machine's stream is still.
pub fn ends_are_one_stream()
    ensures begins { Begins }
    ensures flips { Flips }
    ensures calls { Calls }
    ensures accepts { Accepts }
    ensures shows { Showing }
    ensures sends { Sends }
    ensures comes { Comes }
    ensures pieces { ComesInPieces }
    ensures payload_over { PayloadOver }
    ensures releases { ReleaseLaw }
    ensures loses { Loses }
    ensures still { QuietIsStill }
{}
