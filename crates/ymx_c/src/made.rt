//! What C is handed: a value in a block of its own, by its address, and a number that says what became of the call.

ghost use Rattle.std.specs.Prelude.{◌≡◌, pos, Option, Some, None};
ghost use Rattle.std.specs.Coded.{coded_option};
ghost use Rattle.std.specs.Ptr.{null_ptr};
ghost use Rattle.ymx_c.specs.NewAnswers.{IsSomewhere};

use std::alloc::Global;
use std::marker::Model;

/// What a call that makes a `T` answers: its address and 0, or NULL and why there is none. It owns the `T`, and the
/// right to free its block.
pub(crate) struct Made<T> {
    pub(crate) at: *mut T,
    pub(crate) answer: i64,
    pub(crate) ghost value: { Option T } by { coded_option T.code },
}

impl<T> Model for Made<T> {
    ghost use Rattle.ymx_c.specs.Handed.{owned_if_made};

    ghost also_owns = { λ m. owned_if_made T.row m.at m.value };
}

impl<T: Drop> Made<T> {
    /// The block of a box.
    pub(crate) fn of(whole: Box<T, Global>) -> Made<T>
        ensures { (result.answer ≡ pos 0) × IsSomewhere result.at × (result.value ≡ Some whole.value) }
    {
        let at = Box::into_raw(whole);
        Made { at, answer: 0 }
    }

    /// NULL, and why.
    pub(crate) fn refused(answer: i64) -> Made<T>
        ensures { (result.answer ≡ answer) × (result.at ≡ null_ptr) × (result.value ≡ None) }
    {
        Made {
            at: std::ptr::null_mut(),
            answer,
        }
    }
}
