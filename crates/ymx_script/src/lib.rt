//! The language of `ymx script`: steps of a world of two sessions, a line each, and what they answer, a
//! line each.
//!
//! What is written is the answers of a run of a world that the lines ask for.
#![tactic(auto)]

mod command;
mod law;
mod lines;
mod player;
mod playing;
mod printing;
mod settings;
mod words;

pub use command::{Command, command_of};
pub use law::a_script_is_a_run;
pub use lines::ScriptEnd;
pub use playing::script;
