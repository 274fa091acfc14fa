//! The options, a row each.

ghost use Rattle.std.specs.Prelude.{◌≡◌, map};
ghost use Rattle.ymx_arguments.specs.Rows.{is_of, row_of, rows, stated};

use std::convert::AsStr;

/// Which subcommands have an option.
#[derive(Clone, Copy)]
pub(crate) enum Owner {
    Frames,
    Tools,
    Local,
    Remote,
    Ends,
}

impl Owner {
    /// Whether the subcommand of this name is one of these.
    pub(crate) fn has(self, name: &str) -> bool
        ensures { result ≡ is_of self name.now }
    {
        match self {
            Owner::Frames => name == "frames",
            Owner::Tools => name == "frames" || name == "script",
            Owner::Local => name == "local",
            Owner::Remote => name == "remote",
            Owner::Ends => name == "local" || name == "remote",
        }
    }
}

/// What an option takes.
#[derive(Clone, Copy)]
pub(crate) enum Kind {
    /// Nothing.
    Flag,
    /// A word that stands without its name.
    Word,
    /// A text.
    Text,
    /// A text each time that it is given, which may be several times.
    Texts,
}

/// An option.
#[derive(Clone, Copy)]
pub(crate) struct Row {
    pub(crate) name: &'static str,
    /// Names that are taken too, and that the help doesn't show.
    pub(crate) old_names: &'static [&'static str],
    /// A letter that stands for it too.
    pub(crate) letter: Option<char>,
    pub(crate) owner: Owner,
    pub(crate) kind: Kind,
    /// What the help calls its value. Empty where it takes none.
    pub(crate) value: &'static [&'static str],
    /// The least number that it takes, if it takes numbers, or the least port of its address.
    pub(crate) least: u32,
    /// The greatest one.
    pub(crate) most: u32,
    /// The text that it has where none is given.
    pub(crate) default: &'static [&'static str],
    /// Whether it must be given.
    pub(crate) is_needed: bool,
    /// The option that it can't be given with.
    pub(crate) apart: Option<&'static str>,
    pub(crate) help: &'static str,
}

impl Row {
    /// What the help calls its value.
    pub(crate) fn value_name(&self) -> &'static str {
        self.value.first().copied().unwrap_or("")
    }
}

/// What flags have in common.
const FLAG: Row = Row {
    name: "",
    old_names: &[],
    letter: None,
    owner: Owner::Ends,
    kind: Kind::Flag,
    value: &[],
    least: 0,
    most: 0,
    default: &[],
    is_needed: false,
    apart: None,
    help: "",
};

/// A row that is as another but for some fields.
macro_rules! row {
    ($base:ident, $($field:ident: $value:expr),* $(,)?) => {
        Row { $($field: $value,)* ..$base }
    };
}

/// What addresses have in common.
const ADDRESS: Row = row!(FLAG, kind: Kind::Text, value: &["ADDRESS"]);

/// What numbers of seconds have in common.
const SECONDS: Row = row!(FLAG, kind: Kind::Text, value: &["SECONDS"], least: 1, most: 3_600);

/// What numbers of bytes have in common.
const BYTES: Row =
    row!(FLAG, kind: Kind::Text, value: &["BYTES"], least: 262_144, most: 16_777_216, default: &["262144"]);

/// What other numbers have in common.
const NUMBER: Row = row!(FLAG, kind: Kind::Text, value: &["N"]);

/// The options, in the order of the help.
static ROWS: [Row; 25] = [
    row!(BYTES, name: "limit", owner: Owner::Frames,
        help: "The longest payload accepted, from 262144 to 16777216"),
    row!(FLAG, name: "file", owner: Owner::Tools, kind: Kind::Word, value: &["FILE"],
        help: "The file to read; `-` or none is standard input"),
    row!(ADDRESS, name: "listen", owner: Owner::Local, is_needed: true,
        help: "Accept users at ADDRESS, as 127.0.0.1:8080"),
    row!(ADDRESS, name: "peer", owner: Owner::Local, apart: Some("bind"),
        help: "Where `ymx remote` listens, to connect there"),
    row!(ADDRESS, name: "bind", old_names: &["await"], owner: Owner::Local,
        help: "Where to listen for `ymx remote`, in place of --peer"),
    row!(ADDRESS, name: "bind", owner: Owner::Remote,
        help: "Where to listen for `ymx local`"),
    row!(ADDRESS, name: "peer", old_names: &["call"], owner: Owner::Remote, apart: Some("bind"),
        help: "Where `ymx local` listens, to connect there in place of --bind"),
    row!(ADDRESS, name: "target", owner: Owner::Remote, is_needed: true, least: 1,
        help: "Where each stream is connected to"),
    row!(FLAG, name: "keep", owner: Owner::Local,
        help: "Reconnect after the link is lost"),
    row!(FLAG, name: "keep", owner: Owner::Remote,
        help: "Accept the next peer after one has gone"),
    row!(NUMBER, name: "links", owner: Owner::Local, least: 1, most: 64, apart: Some("bind"),
        help: "Connections to the peer, 1 to 64, a thread each"),
    row!(NUMBER, name: "peers", owner: Owner::Remote, least: 1, most: 256, apart: Some("peer"),
        help: "Most peers at once, 1 to 256 [default: 1, with --keep 16]"),
    row!(SECONDS, name: "ping",
        help: "Ping after SECONDS of silence; drop the peer after twice that, 1 to 3600"),
    row!(SECONDS, name: "keepalive", least: 0, default: &["60"],
        help: "TCP keepalive: idle time before the first probe, 0 to turn it off"),
    row!(SECONDS, name: "idle", most: 86_400,
        help: "Idle timeout of a connection, 1 to 86400"),
    row!(SECONDS, name: "timeout", apart: Some("bind"),
        help: "Connect timeout, 1 to 3600"),
    row!(FLAG, name: "proxy-protocol", owner: Owner::Local,
        help: "Send a PROXY protocol v1 header on each stream"),
    row!(NUMBER, name: "count", owner: Owner::Local, most: u32::MAX,
        help: "Exit after N connections"),
    row!(FLAG, name: "from", kind: Kind::Texts, value: &["NETWORK"], apart: Some("peer"),
        help: "Accept peers only from NETWORK, as 192.0.2.0/24; up to 8 times"),
    row!(ADDRESS, name: "status",
        help: "Serve metrics and health at ADDRESS, as 127.0.0.1:9100"),
    row!(FLAG, name: "status-anywhere",
        help: "Allow a --status address other than loopback"),
    row!(FLAG, name: "times",
        help: "Prefix log lines with the time"),
    row!(BYTES, name: "window",
        help: "Receive window per stream, 262144 to 16777216"),
    row!(NUMBER, name: "workers", owner: Owner::Remote, least: 1, most: 1_024, default: &["1024"],
        help: "Most streams at once, 1 to 1024"),
    row!(FLAG, name: "verbose", letter: Some('v'),
        help: "Log listening addresses, peers and connections"),
];

/// The options.
#[tactic(auto, unfolding(crate::specs::Rows::rows))]
pub(crate) fn rows() -> &'static [Row]
    ensures { map stated result.now ≡ rows }
{
    &ROWS
}

/// An option that these words name, which only the other endpoint's subcommand has, and that one.
pub fn foreign_option<S: AsStr>(words: &[S]) -> Option<(&str, &'static str)> {
    let (own, other) = match words.get(1)?.as_str() {
        "local" => ("local", "remote"),
        "remote" => ("remote", "local"),
        _ => return None,
    };
    for word in words {
        let word = word.as_str();
        let name = word.split_once('=').map_or(word, |(name, _)| name);
        if has_option(other, name) && !has_option(own, name) {
            return Some((name, other));
        }
    }
    None
}

/// Whether the subcommand of this name has the option of this name, which stands after two hyphens.
fn has_option(subcommand: &str, name: &str) -> bool {
    let of = |row: &Row| row.owner.has(subcommand) && name.strip_prefix("--") == Some(row.name);
    rows().iter().any(of)
}

/// The row of the option of this name: the first, since those of one name differ in their owner and help alone. One that
/// takes nothing, where there is none.
pub(crate) fn row_of(name: &str) -> Row
    ensures { stated result ≡ row_of name.now }
{
    for row in rows() {
        if row.name == name {
            return *row;
        }
    }
    FLAG
}
