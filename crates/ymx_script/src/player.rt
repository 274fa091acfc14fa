//! The lines of a script, played one after another.

ghost use Rattle.std.specs.Prelude.{◌≡◌, ◌==◌, [], ◌≤◌, ◌++◌, length, MatchOption, ℕ, List, true, false, Some, None, is_none, take, IfOk, OnOk, OnErr};
ghost use Rattle.std.specs.Io.{StartsWith};
ghost use Rattle.std.specs.List.{position};
ghost use Rattle.ymx_machine.specs.declared.types.Answer.{Answer as AnswerValue};
ghost use Rattle.ymx_model.specs.session.Emissions.{in_turn};
ghost use Rattle.ymx_model.specs.world.Worlds.{Steps};
ghost use Rattle.ymx_script.specs.Language.{command};
ghost use Rattle.ymx_script.specs.Printing.{error_line, with_line_feed, yes_or_no, answer_text};
ghost use Rattle.ymx_script.specs.Players.{position_of, asks_world};
ghost use Rattle.ymx_script.specs.Scripts.{EndsLine, IsPlayed, Says, SaysAt, SaysIn, has_feed, is_bad_setting, is_mistake, longest, first_position, unless_late, with_config, world_or_new};

use crate::command::{Command, command_of};
use crate::printing::{append_answer, append_pipe, append_yes_or_no};
use crate::settings::Settings;
use std::alloc::Global;
use ymx_frames::append_number;
use ymx_memory::{RefusedAllocation, extend};
use ymx_model::{Answer, Config, Side, Step};
use ymx_world::World;

/// A place in a script, and what was printed and not yet written.
#[derive(Drop)]
pub(crate) struct Player {
    alloc: Global,
    settings: Settings,
    world: Option<World>,
    text: Vec<u8>,
}

/// Takes back what was appended after `start` if not all of it was.
fn whole_or_none(
    text: &mut Vec<u8>,
    start: usize,
    appended: Result<(), RefusedAllocation>,
) -> Result<(), RefusedAllocation>
    ensures same { result ≡ appended }
    ensures ok { OnOk appended (text.new.items ≡ text.old.items) }
    ensures err { OnErr appended (text.new.items ≡ take start text.old.items) }
{
    if appended.is_err() {
        text.truncate(start);
    }
    appended
}

/// Appends the line of an answer.
fn append_line(
    alloc: Global,
    text: &mut Vec<u8>,
    shown: bool,
    answer: &Answer,
) -> Result<(), RefusedAllocation>
    ensures ok { OnOk result (text.new.items ≡ text.old.items ++ with_line_feed (answer_text shown answer.now)) }
    ensures kept { StartsWith text.new.items text.old.items }
{
    append_answer(alloc, text, shown, answer)?;
    extend(text, b"\n")
}

/// Appends a line of a word and a yes or no.
fn append_test(text: &mut Vec<u8>, name: &[u8], yes: bool) -> Result<(), RefusedAllocation>
    ensures ok { OnOk result (text.new.items ≡ text.old.items ++ with_line_feed (name.now ++ yes_or_no yes)) }
    ensures kept { StartsWith text.new.items text.old.items }
{
    extend(text, name)?;
    append_yes_or_no(text, yes)?;
    extend(text, b"\n")
}

/// Makes a step, and appends the line of its answer.
fn perform_step(
    alloc: Global,
    world: &mut World,
    text: &mut Vec<u8>,
    shown: bool,
    step: &Step,
) -> Result<(), RefusedAllocation>
    ensures ok { OnOk result ((given : AnswerValue) × Steps in_turn step.now given world.old world.new × (text.new.items ≡ text.old.items ++ with_line_feed (answer_text shown given))) }
    ensures kept { StartsWith text.new.items text.old.items }
{
    let answer = world.step(step)?;
    append_line(alloc, text, shown, &answer)
}

/// Does what a command asks of the world, and appends its line.
fn perform(
    alloc: Global,
    world: &mut World,
    text: &mut Vec<u8>,
    command: &Command,
) -> Result<(), RefusedAllocation>
    requires { asks_world command.now ≡ true }
    ensures ok { OnOk result ((now : List ℕ) × SaysIn command.now world.old now world.new × (text.new.items ≡ text.old.items ++ now)) }
    ensures kept { StartsWith text.new.items text.old.items }
{
    match command {
        Command::Do(step) => perform_step(alloc, world, text, true, step),
        Command::Skip(step) => perform_step(alloc, world, text, false, step),
        Command::Quiet => append_test(text, b"quiet ", world.quiet()),
        Command::Due(side) => append_test(text, b"due ", world.due(*side)),
        Command::Show(direction) => {
            append_pipe(alloc, text, world.pipe(*direction))?;
            extend(text, b"\n")
        }
        _ => Ok(()),
    }
}

impl Player {
    /// At the start of a script.
    pub(crate) fn new(alloc: Global) -> Player
        ensures position { position_of result ≡ first_position }
        ensures text { result.text.items ≡ [] }
    {
        Player {
            alloc,
            settings: Settings::new(),
            world: None,
            text: Vec::new(alloc),
        }
    }

    /// What was printed and is kept to be written.
    pub(crate) fn text(&self) -> &[u8]
        ensures { result.now ≡ self.now.text.items }
    {
        self.text.as_slice()
    }

    /// What is kept was written.
    pub(crate) fn clear(&mut self)
        ensures position { position_of self.new ≡ position_of self.old }
        ensures text { self.new.text.items ≡ [] }
    {
        self.text.clear();
    }

    /// Sets the config of a side, if the world isn't there and a session can be made with it.
    fn set(&mut self, side: Side, config: Config) -> bool
        ensures good { result ≡ true → unless_late self.old.world (with_config side config (position_of self.old)) ≡ Some (position_of self.new) }
        ensures bad { result ≡ false → is_none (unless_late self.old.world (with_config side config (position_of self.old))) ≡ true }
        ensures same { self.new.text ≡ self.old.text }
    {
        if self.world.is_some() {
            return false;
        }
        self.settings.set(side, config)
    }

    /// Does what a command asks of the world, which is made where it isn't there, and appends its line, or
    /// nothing where there is no memory.
    fn ask(&mut self, command: &Command) -> Result<(), RefusedAllocation>
        requires { asks_world command.now ≡ true }
        ensures ok { OnOk result ((now : List ℕ) × SaysAt command.now (position_of self.old) now (position_of self.new) × (self.new.text.items ≡ self.old.text.items ++ now)) }
        ensures err { OnErr result (self.new.text.items ≡ self.old.text.items) }
    {
        let mut world = world_or_new(self.alloc, self.settings, self.world.take())?;
        let start = self.text.len();
        let done = perform(self.alloc, &mut world, &mut self.text, command);
        // none was there: by a call, so that the drop of its parts is not proved here
        drop(self.world.replace(world));
        whole_or_none(&mut self.text, start, done)
    }

    /// Does what a line says. Answers `false` for a bad setting.
    fn play(&mut self, command: &Command) -> Result<bool, RefusedAllocation>
        ensures said { IfOk result (λ good. good ≡ true → (now : List ℕ) × Says command.now (position_of self.old) now (position_of self.new) × (self.new.text.items ≡ self.old.text.items ++ now)) }
        ensures bad { IfOk result (λ good. good ≡ false → (is_bad_setting command.now (position_of self.old) ≡ true) × (self.new.text.items ≡ self.old.text.items)) }
        ensures err { OnErr result (self.new.text.items ≡ self.old.text.items) }
    {
        match command {
            Command::Nothing => Ok(true),
            Command::First(side, first) => {
                let window = self.settings.config(*side).window;
                Ok(self.set(
                    *side,
                    Config {
                        window,
                        first: *first,
                    },
                ))
            }
            Command::Window(side, window) => {
                let first = self.settings.config(*side).first;
                let window = *window;
                Ok(self.set(*side, Config { window, first }))
            }
            Command::Do(_)
            | Command::Skip(_)
            | Command::Quiet
            | Command::Due(_)
            | Command::Show(_) => {
                self.ask(command)?;
                Ok(true)
            }
        }
    }

    /// Appends the line of a mistake, or nothing where there is no memory.
    pub(crate) fn append_error(&mut self, number: u64) -> Result<(), RefusedAllocation>
        ensures ok { OnOk result (self.new.text.items ≡ self.old.text.items ++ error_line number) }
        ensures err { OnErr result (self.new.text.items ≡ self.old.text.items) }
    {
        let start = self.text.len();
        let appended = append_error(&mut self.text, number);
        whole_or_none(&mut self.text, start, appended)
    }

    /// Plays a line, without its line feed. Answers `false` for a mistake, which prints nothing.
    pub(crate) fn play_line(&mut self, line: &[u8]) -> Result<bool, RefusedAllocation>
        requires one { has_feed line.now ≡ false }
        requires short { length line.now ≤ longest }
        ensures played { IfOk result (λ good. good ≡ true → (now : List ℕ) × IsPlayed line.now (position_of self.old) now (position_of self.new) × (self.new.text.items ≡ self.old.text.items ++ now)) }
        ensures mistake { IfOk result (λ good. good ≡ false → (is_mistake (command line.now) (position_of self.old) ≡ true) × (self.new.text.items ≡ self.old.text.items)) }
        ensures err { OnErr result (self.new.text.items ≡ self.old.text.items) }
    {
        let Some(command) = command_of(self.alloc, line)? else {
            return Ok(false);
        };
        self.play(&command)
    }
}

/// Appends the line of a mistake.
fn append_error(text: &mut Vec<u8>, number: u64) -> Result<(), RefusedAllocation>
    ensures ok { OnOk result (text.new.items ≡ text.old.items ++ error_line number) }
    ensures kept { StartsWith text.new.items text.old.items }
{
    append_number(text, b"error line ", number)?;
    extend(text, b"\n")
}

/// The world, which is made with these settings where it isn't there.
fn world_or_new(
    alloc: Global,
    settings: Settings,
    world: Option<World>,
) -> Result<World, RefusedAllocation>
    ensures { IfOk result (λ made. made ≡ world_or_new settings.a settings.b world) }
{
    match world {
        Some(world) => Ok(world),
        None => settings.new_world(alloc),
    }
}

/// Where the first line of these bytes ends.
pub(crate) fn feed_in(bytes: &[u8]) -> Option<usize>
    ensures { MatchOption result (has_feed bytes.now ≡ false) (λ position. EndsLine bytes.now position) }
{
    match first_feed(bytes) {
        Some(position) => Some(position),
        None => None,
    }
}

/// The place of the first line feed.
fn first_feed(bytes: &[u8]) -> Option<usize>
    ensures { result ≡ position (λ b. b == 10) bytes.now }
{
    bytes.iter().position(|b| *b == b'\n')
}
