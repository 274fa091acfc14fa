//! The command line of `ymx`: its words are read as a task, with the options of its subcommand.
//!
//! An option is a row of the table in `rows.rt`: clap's argument, how its value is read, and its help come from there.
//! `parse` says which words ask for which task, and which are a mistake.
#![tactic(auto)]

mod command;
mod networks;
mod options;
mod reading;
mod rows;

pub use reading::{CommandFault, Task, parse};
pub use rows::foreign_option;
pub use ymx_policy::Plan;
