//! The page of metrics, in Prometheus's text format, version 0.0.4: a row a family.

use crate::connections::{CAUSES, ENDINGS};
use crate::counts::{Counts, REASONS};
use crate::requests::Standing;
use std::alloc::{AllocError, Global};

/// Adds families to a text, each by its name, its help, the values of its label, if it has one, and its numbers.
macro_rules! push_families {
    ($text:expr; $($name:literal $help:literal: $label:literal $values:expr, $numbers:expr;)*) => {
        $(push($text, $name, $help, ($label, $values), $numbers)?;)*
    };
}

/// The page of an endpoint. `AllocError` where there is no memory for the whole of it.
pub(crate) fn page(
    alloc: Global,
    counts: &Counts,
    standing: Standing,
) -> Result<String, AllocError> {
    let mut text = String::new(alloc);
    let n = &counts.numbers;
    push_families!(&mut text;
        "ymx_bytes_total" "Bytes that connections have passed.": "way" "to_peer from_peer", &[n.to_peer, n.from_peer];
        "ymx_connections_begun_total" "Connections that have begun.": "" "", &[n.begun];
        "ymx_connections_ended_total" "Connections ended, by the first direction that failed.": "ending" ENDINGS, &counts.ended;
        "ymx_connections_refused_total" "Connections that got no stream.": "cause" CAUSES, &counts.declined;
        "ymx_peers_come_total" "Sessions with a peer that have begun.": "" "", &[n.sessions_begun];
        "ymx_peers_gone_total" "Sessions with a peer that have ended.": "" "", &[n.sessions_ended];
        "ymx_peers" "Sessions with a peer: a link has one.": "" "", &[counts.sessions()];
        "ymx_places" "Stream slots of all sessions, used or free.": "" "", &[n.slots];
        "ymx_users_waiting" "Sessions whose stream slots are all used and whose users wait.": "" "", &[n.waiting];
        "ymx_targets_unreached_total" "Connections to the target that could not be made.": "reason" REASONS, &counts.unreached;
        "ymx_streams_rejected_total" "Incoming streams rejected: out of memory.": "" "", &[n.rejected];
        "ymx_system_refusals_total" "How often the system refused what an option asks for.": "" "", &[n.system_refusals];
        "ymx_connections_open" "Connections that are open.": "" "", &[n.open];
        "ymx_connection_oldest_seconds" "Age of the oldest connection that is open, 0 where none is.": "" "", &[standing.age];
        "ymx_draining" "1 while draining.": "" "", &[standing.is_draining as u64];
    );
    Ok(text)
}

/// Adds a family: a counter where its name ends in `_total`, else a gauge.
fn push(
    text: &mut String,
    name: &str,
    help: &str,
    (label, values): (&str, &str),
    numbers: &[u64],
) -> Result<(), AllocError> {
    let kind = if name.ends_with("_total") {
        "counter"
    } else {
        "gauge"
    };
    write!(text, "# HELP {name} {help}\n# TYPE {name} {kind}\n")?;
    for (value, number) in values.split(' ').zip(numbers) {
        match label {
            "" => writeln!(text, "{name} {number}")?,
            label => writeln!(text, "{name}{{{label}=\"{value}\"}} {number}")?,
        }
    }
    Ok(())
}
