//! A tunnel: TCP connections joined to the streams of a session.
//!
//! What a copy moved is a beginning of what was given, and at its end all of it. Of the servers no more is proved than
//! that they are safe.
//!
//! `Sink` and `Source` are the ends of a copy that are halves of streams; `copy_in` and `copy_out` copy between one and
//! a device. `serve_local` opens a stream for each connection, and `serve_remote` makes a connection for each stream.
#![tactic(auto)]

mod connections;
mod copied;
mod copying;
mod direction;
mod ends;
mod halves;
mod joining;
mod serving;

pub use connections::Connections;
pub use copied::{Copied, CopyWhy};
pub use copying::{copy_in, copy_out};
pub use ends::{Sink, Source};
pub use serving::{Served, USUAL_WORKERS, serve_local, serve_remote};
