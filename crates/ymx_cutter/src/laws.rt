//! Laws of the definitions: how a text is cut, and that it makes no difference in what pieces it
//! comes. (The functions themselves do nothing.)

ghost use Rattle.std.specs.Prelude.{◌≡◌, ℕ, List, [], ◌∷◌, ◌++◌, length, Some};
ghost use Rattle.ymx_header.specs.declared.fault.Fault.{Fault};
ghost use Rattle.ymx_header.specs.Frames.{Frame};
ghost use Rattle.ymx_cutter.specs.Frames.{joined};
ghost use Rattle.ymx_cutter.specs.Cuts.{Cuts, FaultStands};
ghost use Rattle.ymx_cutter.specs.Gathered.{Gathered, nothing};
ghost use Rattle.ymx_cutter.specs.Cutters.{Seen, Gathers, IsUnfinished, begun_of};
ghost use Rattle.ymx_cutter.specs.Cutters.Seen.{InHeader, Broken};
ghost use Rattle.ymx_cutter.specs.Calls.{Call, AreCalls, text_of, gathered};
ghost use Rattle.ymx_cutter.specs.Bytewise.{seen_in, events_in, events_of};

use crate::item::Item;

/// A text is cut into frames and a rest in one way alone. At most one fault stands in it, right
/// after these frames.
pub fn one_way()
    ensures cuts { (limit : ℕ) (text : List ℕ) (frames others : List Frame) (rest left : List ℕ) →
        Cuts limit text frames rest → Cuts limit text others left → (frames ≡ others) × (rest ≡ left) }
    ensures faults { (limit : ℕ) (text : List ℕ) (offset place : ℕ) (fault other : Fault) →
        FaultStands limit text offset fault → FaultStands limit text place other → (offset ≡ place) × (fault ≡ other) }
    ensures after_frames { (limit : ℕ) (text : List ℕ) (frames : List Frame) (rest : List ℕ) (offset : ℕ) (fault : Fault) →
        Cuts limit text frames rest → FaultStands limit text offset fault → offset ≡ length (joined frames) }
{}

/// A cutter that has read a whole text has found all its frames and nothing else. The frames that were gathered are
/// those that the text is cut into, the frame that is begun has the rest of its bytes, and a fault is reported exactly where
/// one stands, after the frames before it.
pub fn what_is_read()
    ensures nothing { (limit : ℕ) → Gathers limit [] nothing (InHeader []) }
    ensures cuts { (limit : ℕ) (text : List ℕ) (g : Gathered) (seen : Seen) → Gathers limit text g seen →
        (rest : List ℕ) × Cuts limit text g.frames rest × (length rest ≡ begun_of seen) }
    ensures fault { (limit : ℕ) (text : List ℕ) (g : Gathered) (fault : Fault) → Gathers limit text g (Broken fault) →
        FaultStands limit text (length (joined g.frames)) fault }
    ensures found { (limit : ℕ) (text : List ℕ) (g : Gathered) (seen : Seen) (offset : ℕ) (fault : Fault) → Gathers limit text g seen →
        FaultStands limit text offset fault → seen ≡ Broken fault }
{}

/// In whatever pieces a text comes to a new cutter, its items make the frames of the text. A fault
/// is reported only where one stands, and none that stands is missed.
pub fn any_pieces()
    ensures frames { (limit : ℕ) (calls : List Call) (end : Seen) → AreCalls limit (InHeader []) calls end →
        (rest : List ℕ) × Cuts limit (text_of calls) (gathered nothing calls).frames rest × (length rest ≡ begun_of end) }
    ensures fault_told { (limit : ℕ) (before : List Call) (call : Call) (after : List Call) (end : Seen) (fault : Fault) →
        AreCalls limit (InHeader []) (before ++ call ∷ after) end → call.item ≡ Some (Item.Fault fault) →
        FaultStands limit (text_of (before ++ call ∷ after)) (length (joined (gathered nothing before).frames)) fault }
    ensures fault_found { (limit : ℕ) (calls : List Call) (end : Seen) (offset : ℕ) (fault : Fault) →
        AreCalls limit (InHeader []) calls end → FaultStands limit (text_of calls) offset fault → end ≡ Broken fault }
{}

/// What `a ++ b` gives is what `a` gives and then what `b` gives, byte for byte, and calls give what
/// the bytes that they took give. So pieces make no difference at any moment.
pub fn byte_by_byte()
    ensures seen { (limit : ℕ) (seen : Seen) (a b : List ℕ) → seen_in limit seen (a ++ b) ≡ seen_in limit (seen_in limit seen a) b }
    ensures events { (limit : ℕ) (seen : Seen) (a b : List ℕ) →
        events_in limit seen (a ++ b) ≡ events_in limit seen a ++ events_in limit (seen_in limit seen a) b }
    ensures calls { (limit : ℕ) (seen end : Seen) (calls : List Call) → IsUnfinished seen → AreCalls limit seen calls end →
        (seen_in limit seen (text_of calls) ≡ end) × (events_in limit seen (text_of calls) ≡ events_of calls) }
{}
