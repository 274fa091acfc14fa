//! The runtime, as sessions and streams keep it.

use std::alloc::AllocGlobal;
use std::sync::Wait;
use std::thread::Threads;

/// The runtime of who calls a session or a stream, which may wait and find memory. They keep it by value, so none of their calls takes it.
pub trait Runtime: Wait + AllocGlobal + Copy + Drop {}

impl<W: Wait + AllocGlobal + Copy + Drop> Runtime for W {}

/// The runtime that `main` is given: it may start threads too, as a session needs them.
pub trait Host: Runtime + Threads + Send + Sync + 'static {}

impl<W: Runtime + Threads + Send + Sync + 'static> Host for W {}
