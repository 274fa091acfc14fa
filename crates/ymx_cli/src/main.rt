//! The program `ymx`: it does what its command line asks for, over the standard devices.
//!
//! `ymx_main` says which words get which frames or scripts, and with which exit status.
#![tactic(auto)]

mod command;
mod disk;
mod help;
mod log;
mod standard;
mod time;

use command::{Devices, cannot_open, name_other_end, report, report_fault, ymx_main};
use disk::Disk;
use help::words_of_help;
use log::{Log, LogWriter};
use standard::{StandardError, hold_standard};
use std::alloc::Global;
use std::process::ExitCode;
use std::rt::Env;
use std::sync::Mutex;
use std::{env, io};
use ymx_model::{Outlet, ReaderInlet, WriterOutlet};

fn main(rt: HostRuntime) -> ExitCode {
    let log = Mutex::new(Log::new(StandardError {
        outlet: WriterOutlet {
            writer: rt.stderr(),
            failures: 0,
        },
    }));
    let mut devices = Devices {
        files: Disk { rt: &rt },
        reader: ReaderInlet {
            reader: rt.stdin(),
            failures: 0,
        },
        writer: WriterOutlet {
            writer: rt.stdout(),
            failures: 0,
        },
        errors: LogWriter::new(&rt, &log),
        lines: LogWriter::new(&rt, &log),
    };
    if !hold_standard(&rt) {
        return ExitCode::from(cannot_open(&mut devices.errors, "/dev/null", ""));
    }
    let alloc = rt.alloc();
    let status = match words(&rt, alloc) {
        Ok(words) => {
            let words = words_of_help(words.as_slice());
            name_other_end(&mut devices.lines, words);
            ymx_main(&rt, alloc, words, &mut devices)
        }
        Err(error) => no_words(&error, &mut devices.errors),
    };
    devices.errors.finish();
    ExitCode::from(status)
}

/// The words of the command line.
fn words<R: Env + AllocGlobal>(rt: &R, alloc: Global) -> io::Result<Vec<String>> {
    Ok(env::args(rt)?.collect(alloc)?)
}

/// Says why the words of the command line can't be had, and answers the exit status.
fn no_words<E: Outlet>(error: &io::Error, errors: &mut E) -> u8 {
    if error.kind() != io::ErrorKind::InvalidData {
        return report_fault(errors, b"ymx: out of memory\n");
    }
    let words = b"error: a word of the command line is not UTF-8\n";
    report(errors, &[words]);
    2
}
