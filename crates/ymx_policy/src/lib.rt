//! The state machine of an endpoint of a tunnel: what it connects to, when it listens, what follows a session, how long it
//! pauses, what it logs, and its exit status. It is given an outcome and gives the next command; `run` is the loop that
//! executes commands.
#![tactic(auto)]

mod commands;
mod driver;
mod laws;
mod machine;
mod options;
mod plan;
mod reason;
mod texts;

pub use commands::{
    Action, Command, Dial, Fault, Keepalive, Named, Notice, Outcome, Peers, Session, SessionEnd,
    Users, Words,
};
pub use driver::{World, greatest, run};
pub use laws::{
    connects_forever, each_fault_is_logged, ends_where_all_came, faults_have_reasons,
    follows_the_plan, keepalives, keeps_on, lines, one_fault, options_arrive, own_port_first,
    pauses, reasons_are_logged, serves_peers, statuses, users_wait_for_the_next_session,
};
pub use machine::{Stage, State};
pub use options::{Endpoint, Network, Networks, PeerAddress, Plan, SessionOptions};
pub use plan::{Mode, Terms, keepalive_of};
pub use reason::Reason;
pub use texts::{Text, fault_text, notice_text, source_text};
