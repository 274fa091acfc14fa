//! Out-of-memory errors, with their cause. A [`RefusedAllocation`] is made in this crate alone, and only where the allocator has
//! refused. So a function that answers with one has met a refusal, in this call or before.
//!
//! A function that takes a count says how much may be asked of it at most, by a number or by what is there (`Bounds`), but
//! for `zeros_as_asked` and `resize_as_asked`: there a user's own argument says how much. So no other refusal comes of a
//! wild request. The bound is the function's: that a call asks for no more than its own work needs, no contract says.
#![tactic(auto)]

mod blocks;
mod refused;
mod tables;

pub use blocks::{
    boxed, copied, extend, push, push_back, queue_with_capacity, reserve, reserve_for,
    reserve_queue, resize_as_asked, ring, share, shared, text_with_capacity, vec_with_capacity,
    wider_ring, zeros, zeros_as_asked, zeros_for,
};
pub use refused::{RefusalCount, RefusedAllocation};
pub use tables::{insert, reserve_map, reserve_set, set_with_capacity, table_of_words};
