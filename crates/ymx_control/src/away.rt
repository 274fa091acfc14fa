//! Who has said Go Away.

ghost use Rattle.std.specs.Prelude.{◌≡◌, true};
ghost use Rattle.ymx_model.specs.session.GoAway.{not_away, away_due, was_said, say_away, begin_away, receive_away};

use std::marker::Model;
use ymx_model::GoAwayMark;

/// Whether this side has said Go Away, and whether the peer has (go away). A contract sees both.
#[derive(Clone, Copy)]
pub struct Away {
    here: GoAwayMark,
    there: bool,
}

impl Model for Away {
    ghost use Rattle.ymx_model.specs.session.GoAway.{Away as BothMarks};

    ghost Value = { BothMarks };

    ghost view = { λ away. record { here = away.here; there = away.there } };

    ghost inverse = { λ marks. record { here = marks.here; there = marks.there } };
}

impl Away {
    /// Neither side has said it.
    pub fn new() -> Away
        ensures { result ≡ not_away }
    {
        Away {
            here: GoAwayMark::Unsaid,
            there: false,
        }
    }

    /// It was called here: its frame is due. A second time changes nothing, whether or not the frame
    /// has gone.
    pub fn say(&mut self)
        ensures { self.new ≡ say_away self.old }
    {
        if self.here == GoAwayMark::Unsaid {
            self.here = GoAwayMark::Due;
        }
    }

    /// Whether its frame is due.
    pub fn is_due(&self) -> bool
        ensures { result ≡ away_due self.now.here }
    {
        self.here == GoAwayMark::Due
    }

    /// Whether it was said here. The peer's new streams are rejected from then on.
    pub fn was_said(&self) -> bool
        ensures { result ≡ was_said self.now.here }
    {
        self.here != GoAwayMark::Unsaid
    }

    /// Its frame begins, and so is no longer due. Only while it is due, as `is_due` tells.
    pub fn begin_frame(&mut self)
        requires { away_due self.old.here ≡ true }
        ensures { self.new ≡ begin_away self.old }
    {
        self.here = GoAwayMark::Sent;
    }

    /// The peer's comes. A second one changes nothing.
    pub fn receive(&mut self)
        ensures { self.new ≡ receive_away self.old }
    {
        self.there = true;
    }

    /// Whether the peer has said it, and so takes no more streams.
    pub fn peer_is_away(&self) -> bool
        ensures { result ≡ self.now.there }
    {
        self.there
    }
}
