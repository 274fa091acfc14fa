//! Which request is answered how: its first line, as it comes in pieces, the answer to it, and the answer's text.

use crate::counts::Counts;
use crate::page::page;
use std::alloc::{AllocError, Global};

/// How many bytes of a line are kept at most.
const MOST: usize = 8_192;

/// What has come of the first line of a request.
#[derive(Drop)]
pub struct RequestLine {
    bytes: Vec<u8>,
}

impl RequestLine {
    /// Nothing has come. `AllocError` where there is no memory for the longest line.
    pub fn new(alloc: Global) -> Result<RequestLine, AllocError> {
        let bytes = Vec::with_capacity(alloc, MOST)?;
        Ok(RequestLine { bytes })
    }

    /// What has come.
    pub fn bytes(&self) -> &[u8] {
        self.bytes.as_slice()
    }

    /// Hears these bytes. Whether the line is there: it ends before the first line feed. One of more than 8,192 bytes
    /// counts as an empty one, which is there.
    pub fn feed(&mut self, bytes: &[u8]) -> bool {
        let end = bytes.iter().position(|byte| *byte == b'\n');
        let more = match end {
            Some(end) => &bytes[..end],
            None => bytes,
        };
        let is_too_long = self.bytes.len() > MOST || more.len() > MOST - self.bytes.len();
        if is_too_long {
            self.bytes.clear();
        } else {
            let _ = self.bytes.extend_from_slice(more);
        }
        is_too_long || end.is_some()
    }
}

/// What a request is answered.
#[derive(Clone, Copy, PartialEq, Eq)]
pub enum Answer {
    /// 200: the page.
    Metrics,
    /// 200 or 503: whether connections are taken.
    Health,
    /// 405: this path takes these methods alone.
    NotAllowed(&'static str),
    /// 202: no more are taken from now on. Where nobody can be asked for that the caller answers [`Answer::NotFound`].
    Drain,
    /// 404: there is nothing at this path.
    NotFound,
    /// 400: this is no request.
    Bad,
}

/// What an answer depends on beside the counts, and whether its body is wanted.
#[derive(Clone, Copy)]
pub struct Standing {
    /// How many seconds ago its oldest connection began that is open.
    pub age: u64,
    /// It takes no more connections.
    pub is_draining: bool,
    /// The body is wanted, and not the head alone.
    pub wants_body: bool,
}

/// The answer to a request whose first line this is, without the line feed at its end, and whether its body is wanted.
pub fn answer_to(line: &[u8]) -> (Answer, bool) {
    match str::from_utf8(line).ok().and_then(parts_of) {
        Some((method, path)) => (answer_for(method, path), method != "HEAD"),
        None => (Answer::Bad, true),
    }
}

/// The method of such a line and its path, without the query. None where it is no request.
fn parts_of(line: &str) -> Option<(&str, &str)> {
    let (method, rest) = line.split_once(' ')?;
    let (target, version) = rest.split_once(' ')?;
    let version = version.strip_suffix('\r').unwrap_or(version);
    if version != "HTTP/1.1" && version != "HTTP/1.0" {
        return None;
    }
    let path = target.split_once('?').map_or(target, |(path, _)| path);
    Some((method, path))
}

/// The answer to this method at this path.
fn answer_for(method: &str, path: &str) -> Answer {
    let gets = method == "GET" || method == "HEAD";
    match path {
        "/metrics" | "/" if gets => Answer::Metrics,
        "/health" if gets => Answer::Health,
        "/drain" if method == "POST" => Answer::Drain,
        "/metrics" | "/" | "/health" => Answer::NotAllowed("GET, HEAD"),
        "/drain" => Answer::NotAllowed("POST"),
        _ => Answer::NotFound,
    }
}

impl Answer {
    /// The answer as it goes out, of an endpoint in this state. `AllocError` where there is no memory for the whole of it.
    pub fn text(
        self,
        alloc: Global,
        counts: &Counts,
        standing: Standing,
    ) -> Result<String, AllocError> {
        let (status, words) = match (self, counts.trouble()) {
            (Answer::Metrics, _) => {
                let page = page(alloc, counts, standing)?;
                return framed(alloc, "200 OK", page.as_str(), standing);
            }
            (Answer::NotAllowed(methods), _) => {
                let status = format!(in alloc; "405 Method Not Allowed\r\nAllow: {methods}")?;
                return framed(alloc, status.as_str(), "method not allowed\n", standing);
            }
            (Answer::Health, _) if standing.is_draining => {
                ("503 Service Unavailable", "draining\n")
            }
            (Answer::Health, Some(trouble)) => ("503 Service Unavailable", trouble),
            (Answer::Health, None) => ("200 OK", "serving\n"),
            (Answer::Drain, _) => ("202 Accepted", "draining\n"),
            (Answer::NotFound, _) => ("404 Not Found", "not found\n"),
            (Answer::Bad, _) => ("400 Bad Request", "bad request\n"),
        };
        framed(alloc, status, words, standing)
    }
}

/// An answer of this status with this text, if its body is wanted.
fn framed(
    alloc: Global,
    status: &str,
    body: &str,
    standing: Standing,
) -> Result<String, AllocError> {
    let said = if standing.wants_body { body } else { "" };
    format!(in alloc;
        "HTTP/1.1 {status}\r\nContent-Type: text/plain; version=0.0.4; charset=utf-8\r\nContent-Length: {}\r\nConnection: close\r\n\r\n{said}",
        body.len()
    )
}
