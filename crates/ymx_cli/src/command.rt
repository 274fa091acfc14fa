//! Does what the words of a command line ask for.

ghost use Rattle.std.specs.Prelude.{ℕ, List, Option, None, Some, ◌≡◌, ◌≤◌, ◌↔◌, ◌⊎◌, map, IfOk};
ghost use Rattle.std.specs.Io.KnownBytes.{Keeps};
ghost use Rattle.clap.specs.Words.{subcommand_of};
ghost use Rattle.ymx_arguments.specs.CommandLine.{IsFaultOf, IsTaskOf, ymx_app};
ghost use Rattle.ymx_arguments.specs.declared.reading.CommandFault.{CommandFault};
ghost use Rattle.ymx_arguments.specs.declared.reading.Task.{Task};
ghost use Rattle.ymx_arguments.specs.declared.reading.Task.TheVariants as TaskOf;
ghost use Rattle.ymx_cli.specs.Doing.{Does, IsUntouched, PlaysFile, PlaysScript, PrintsFile, PrintsFrames, Refuses, change_of};

use crate::log::LogOutlet;
use clap::error::ErrorKind;
use itoa::Buffer;
use std::alloc::Global;
use std::convert::AsStr;
use std::net::{Net, TcpListener, TcpStream};
use std::sync::Wait;
use std::thread::Threads;
use std::time::Clock;
use ymx_arguments::{CommandFault, Task, foreign_option, parse};
use ymx_forward::{run_end, run_selftest};
use ymx_frames::{FramesEnd, frames};
use ymx_model::{Inlet, Outlet, push_all};
use ymx_policy::Plan;
use ymx_script::{ScriptEnd, script};
use ymx_sockets::Host;

/// How many milliseconds the last lines of an endpoint may wait to be written.
const LAST_WORDS: u16 = 1_000;

/// Opens files by their names.
pub trait FileOpener {
    /// An opened file.
    type File: Inlet + Drop;

    /// The bytes of the file of this name, if the opener records them.
    ghost held: { Self → List ℕ → Option (List ℕ) };

    /// Opens the file of this name, to be read from its beginning. The error is why it can't be, if that is known.
    fn open(&self, name: &str) -> Result<Self::File, &'static str>
        ensures { IfOk result (λ file. Keeps (held self.now name.now) (Self.File.remaining file) × (Self.File.failures file ≡ 0)) };
}

/// What the program reads and writes.
#[derive(Drop)]
pub struct Devices<F, R, W, D> {
    pub files: F,
    pub reader: R,
    pub writer: W,
    /// Where faults go.
    pub errors: D,
    /// Where their reasons go, and what `-v` asks for.
    pub lines: D,
}

/// Does what the words of a command line ask for, the first of which is the program's name. Answers the exit status: 0 if
/// all went well, 1 at a fault, 2 for a bad command line.
pub fn ymx_main<
    T: Net<Stream = TcpStream, Listener = TcpListener> + Threads + Clock + Wait + Sync,
    S: AsStr,
    F: FileOpener,
    R: Inlet,
    W: Outlet + Send,
    D: LogOutlet + Send,
>(rt: &T, alloc: Global, words: &[S], devices: &mut Devices<F, R, W, D>) -> u8
    // It does the task that the words name, with their options, or reports a fault that they have.
    ensures { let input = change_of R.remaining R.failures devices.old.reader devices.new.reader in
        let output = change_of W.contents W.failures devices.old.writer devices.new.writer in
        let errors = change_of D.contents D.failures devices.old.errors devices.new.errors in
        ((task : Task) × IsTaskOf (subcommand_of ymx_app (map S.text words.now)) task × Does (F.held devices.old.files) task result input output errors)
        ⊎ ((fault : CommandFault) × IsFaultOf (map S.text words.now) fault × IsUntouched input × Refuses fault result output errors) }
{
    match parse(alloc, words) {
        Ok(task) => devices.run(rt, alloc, task),
        Err(fault) => devices.explain(alloc, &fault),
    }
}

impl<F: FileOpener, R: Inlet, W: Outlet + Send, D: LogOutlet + Send> Devices<F, R, W, D> {
    /// Does this task, and answers the status.
    fn run<T: Host + Threads + Sync>(&mut self, rt: &T, alloc: Global, task: Task) -> u8
        ensures { Does (F.held self.old.files) task.entry result (change_of R.remaining R.failures self.old.reader self.new.reader)
            (change_of W.contents W.failures self.old.writer self.new.writer) (change_of D.contents D.failures self.old.errors self.new.errors) }
    {
        let (reader, writer, errors) = (&mut self.reader, &mut self.writer, &mut self.errors);
        match task {
            Task::Frames { limit, file } => self.run_frames(rt, alloc, limit, file),
            Task::Script { file: None } => finish_script(script(rt, alloc, reader, writer), errors),
            Task::Script { file: Some(name) } => self.play_file(rt, alloc, name),
            Task::Tunnel(plan) => self.run_end(rt, alloc, plan),
            Task::Selftest => u8::from(!run_selftest(rt, alloc, writer, errors)),
        }
    }

    /// Runs the endpoint of this plan, and returns the status. No line waits to be written, unless it may be the last of an endpoint that
    /// neither lasts nor logs each connection.
    fn run_end<T: Host + Threads + Sync>(&mut self, rt: &T, alloc: Global, plan: Plan) -> u8
        ensures { (self.new.reader ≡ self.old.reader) × (self.new.writer ≡ self.old.writer) }
    {
        let terms = plan.terms();
        let of_errors = LAST_WORDS * u16::from(!terms.session.reconnects && terms.link_count <= 1);
        let of_lines = of_errors * u16::from(!plan.is_verbose);
        self.errors.limit(of_errors, plan.has_times);
        self.lines.limit(of_lines, plan.has_times);
        run_end(rt, alloc, plan, &mut self.errors, &mut self.lines)
    }

    /// Prints the frames of the reader, or of the file of this name, and answers the status.
    fn run_frames<T: Wait>(&mut self, rt: &T, alloc: Global, limit: u32, file: Option<&str>) -> u8
        ensures { Does (F.held self.old.files) (TaskOf.Frames limit file.entry) result (change_of R.remaining R.failures self.old.reader self.new.reader)
            (change_of W.contents W.failures self.old.writer self.new.writer) (change_of D.contents D.failures self.old.errors self.new.errors) }
    {
        match file {
            None => {
                let end = frames(rt, alloc, &mut self.reader, &mut self.writer, limit);
                finish(end, &mut self.errors)
            }
            Some(name) => self.print_file(rt, alloc, limit, name),
        }
    }

    /// Prints the frames of the file of this name, and answers the status.
    fn print_file<T: Wait>(&mut self, rt: &T, alloc: Global, limit: u32, name: &str) -> u8
        ensures printed { PrintsFile limit result (F.held self.old.files name.now)
            (change_of W.contents W.failures self.old.writer self.new.writer) (change_of D.contents D.failures self.old.errors self.new.errors) }
        ensures unread { self.new.reader ≡ self.old.reader }
    {
        match self.files.open(name) {
            Ok(mut file) => {
                let end = frames(rt, alloc, &mut file, &mut self.writer, limit);
                finish(end, &mut self.errors)
            }
            Err(why) => cannot_open(&mut self.errors, name, why),
        }
    }

    /// Plays the script in the file of this name, and answers the status.
    fn play_file<T: Wait>(&mut self, rt: &T, alloc: Global, name: &str) -> u8
        ensures played { PlaysFile result (F.held self.old.files name.now)
            (change_of W.contents W.failures self.old.writer self.new.writer) (change_of D.contents D.failures self.old.errors self.new.errors) }
        ensures unread { self.new.reader ≡ self.old.reader }
    {
        match self.files.open(name) {
            Ok(mut file) => {
                let end = script(rt, alloc, &mut file, &mut self.writer);
                finish_script(end, &mut self.errors)
            }
            Err(why) => cannot_open(&mut self.errors, name, why),
        }
    }

    /// Says why the words of a command line name no task, or shows the help or the version that they ask for.
    fn explain(&mut self, alloc: Global, fault: &CommandFault) -> u8
        ensures refused { Refuses fault.now result (change_of W.contents W.failures self.old.writer self.new.writer)
            (change_of D.contents D.failures self.old.errors self.new.errors) }
        ensures unread { self.new.reader ≡ self.old.reader }
    {
        let errors = &mut self.errors;
        let error = match fault {
            CommandFault::Clap(error) => error,
            CommandFault::BadAddress(option, text) => {
                let form = b": it wants an IPv4 address and a port, as 127.0.0.1:8080\n";
                report(&mut self.lines, &[b"ymx: --", option.as_bytes(), form]);
                report(errors, &[b"ymx: bad address ", text.as_bytes(), b"\n"]);
                return 2;
            }
        };
        match error.to_string(alloc) {
            Ok(text) if error.kind() != ErrorKind::OutOfMemory && error.use_stderr() => {
                report(errors, &[text.as_bytes()]);
                2
            }
            Ok(text) if error.kind() != ErrorKind::OutOfMemory => {
                match push_all(&mut self.writer, text.as_bytes()) {
                    Ok(()) => 0,
                    Err(_) => report_fault(errors, b"ymx: writing failed\n"),
                }
            }
            _ => report_fault(errors, b"ymx: out of memory\n"),
        }
    }
}

/// Reports that an option is one of the other endpoint alone.
pub(crate) fn name_other_end<S: AsStr, D: Outlet>(lines: &mut D, words: &[S]) {
    if let Some((option, other)) = foreign_option(words) {
        report(lines, &[b"ymx: ", option.as_bytes()]);
        let other = other.as_bytes();
        report(lines, &[b" is an option of `ymx ", other, b"`\n"]);
    }
}

/// What a frame is at which the printing ends.
const RULES: &[u8] =
    b"ymx: B1: the version of a frame is not 0; B2: its type is above 3; B5: its payload is longer than --limit\n";

/// Says why the printing of frames ended, if a frame is bad, or a device or memory failed, and answers the status.
fn finish<D: Outlet>(end: FramesEnd, errors: &mut D) -> u8
    ensures status { result ≤ 1 }
    ensures good { (result ≡ 0) ↔ (end ≡ FramesEnd.Good) }
    ensures quiet { result ≡ 0 → errors.new ≡ errors.old }
{
    match end {
        FramesEnd::Good => 0,
        FramesEnd::Fault => report_fault(errors, RULES),
        FramesEnd::Rest => 1,
        FramesEnd::Reading => report_fault(errors, b"ymx: reading failed\n"),
        FramesEnd::Writing => report_fault(errors, b"ymx: writing failed\n"),
        FramesEnd::Memory(_) => report_fault(errors, b"ymx: out of memory\n"),
    }
}

/// Says why the playing of a script ended, if a line is bad, or a device or memory failed, and answers the status.
fn finish_script<D: Outlet>(end: ScriptEnd, errors: &mut D) -> u8
    ensures status { result ≤ 1 }
    ensures good { (result ≡ 0) ↔ (end ≡ ScriptEnd.Good) }
    ensures quiet { result ≡ 0 → errors.new ≡ errors.old }
{
    match end {
        ScriptEnd::Good => 0,
        ScriptEnd::Line(number) => {
            let mut buffer = Buffer::new();
            let line = buffer.format(number).as_bytes();
            let why =
                b": no step, a number out of range, or a setting after a step: see `ymx script --help`\n";
            report(errors, &[b"ymx: line ", line, why]);
            1
        }
        ScriptEnd::Reading => report_fault(errors, b"ymx: reading failed\n"),
        ScriptEnd::Writing => report_fault(errors, b"ymx: writing failed\n"),
        ScriptEnd::Memory(_) => report_fault(errors, b"ymx: out of memory\n"),
    }
}

/// Says why the file of this name can't be opened, and that it can't, and answers the status of a fault.
pub(crate) fn cannot_open<'a, D: Outlet>(errors: &mut D, name: &'a str, why: &'a str) -> u8
    ensures { result ≡ 1 }
{
    let name = name.as_bytes();
    if !why.is_empty() {
        report(errors, &[b"ymx: ", name, b": ", why.as_bytes(), b"\n"]);
    }
    report(errors, &[b"ymx: ", name, b": the file can't be opened\n"]);
    1
}

/// Says this, and answers the status of a fault.
pub(crate) fn report_fault<D: Outlet>(errors: &mut D, text: &[u8]) -> u8
    ensures { result ≡ 1 }
{
    report(errors, &[text]);
    1
}

/// Says these, as far as the device takes them.
pub(crate) fn report<D: Outlet>(errors: &mut D, texts: &[&[u8]]) {
    let _ = texts.iter().try_for_each(|text| push_all(errors, text));
}
