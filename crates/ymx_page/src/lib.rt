//! All that an endpoint of a tunnel logs or counts; the page of its metrics in Prometheus's text format, and which
//! request is answered how. It opens no socket and starts no thread.
#![tactic(auto)]

mod connections;
mod counts;
mod event;
mod limit;
mod page;
mod requests;

pub use connections::{Declined, EndedConnection, Ending, Origin, Passed};
pub use counts::Counts;
pub use event::{Event, Line};
pub use limit::{LineLimit, count_line};
pub use requests::{Answer, RequestLine, Standing, answer_to};
