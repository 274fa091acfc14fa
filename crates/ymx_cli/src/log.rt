//! The log: where faults and lines go. An endpoint never waits for its reader: a line that the device can't take is
//! dropped, and the next one comes after the number of those that were. With `--times` each begins with the time.

ghost use Rattle.std.specs.Prelude.{None, ◌<◌, ◌≤◌, length, true, IfOk};

use crate::time::{TIME, time_text};
use arrayvec::{ArrayString, ArrayVec};
use std::sync::{Mutex, Wait};
use std::time::Clock;
use ymx_model::{DeviceFault, Outlet};
use ymx_page::count_line;

/// How many bytes a device takes at once that is ready for a line.
const ROOM: usize = 4_096;

/// An outlet for lines that may be set not to wait for its reader.
pub trait LogOutlet: Outlet {
    /// From now on a line is dropped that the device can't take within so many milliseconds, and each begins with the time,
    /// if that is asked for.
    fn limit(&mut self, milliseconds: u16, is_timed: bool);
}

/// A device for lines that knows whether it takes one now.
pub(crate) trait LineDevice {
    /// Takes the first of these bytes, at least 1 if there are any, and answers how many. It waits so many milliseconds at
    /// most until up to 4,096 bytes are taken at once; without a limit the write may wait. A call that fails takes none.
    fn write(&mut self, bytes: &[u8], patience: Option<u16>) -> Result<usize, DeviceFault>
        ensures within { IfOk result (λ count. count ≤ length bytes.now) }
        ensures some { 0 < length bytes.now → IfOk result (λ count. 0 < count) };
}

/// The log of several threads.
#[derive(Drop)]
pub(crate) struct Log<D> {
    device: D,
    /// How many lines were dropped since one was logged. It stays at the greatest `u64`.
    dropped: u64,
}

impl<D: LineDevice> Log<D> {
    /// A log on this device, of which nothing was dropped.
    pub(crate) fn new(device: D) -> Log<D> {
        Log { device, dropped: 0 }
    }

    /// Writes lines, each after this time, and before them how many were dropped, if any were, in one write where the device takes
    /// all of it. Those that it doesn't take within so many milliseconds are dropped themselves, and counted as one. So are those
    /// that are too long with what stands before them.
    fn append(&mut self, time: &[u8], lines: &[u8], patience: u16) -> Result<(), DeviceFault> {
        if let Some(text) = text_of(time, self.dropped, lines)
            && self.write_all(text.as_slice(), Some(patience)).is_ok()
        {
            self.dropped = 0;
            return Ok(());
        }
        self.dropped = self.dropped.saturating_add(1);
        Err(DeviceFault)
    }

    /// Reports at the end how many lines were dropped after the last one that was logged, if any were.
    fn finish(&mut self, time: &[u8], patience: u16) -> Result<(), DeviceFault> {
        let text = text_of(time, self.dropped, &[]).ok_or(DeviceFault)?;
        self.write_all(text.as_slice(), Some(patience))?;
        self.dropped = 0;
        Ok(())
    }

    /// Writes all of these bytes, or a beginning of them where the device doesn't take more.
    fn write_all(&mut self, bytes: &[u8], patience: Option<u16>) -> Result<(), DeviceFault> {
        let mut taken = 0;
        'push: while taken < bytes.len() {
            taken += self.device.write(&bytes[taken..], patience)?;
        }
        Ok(())
    }
}

/// These lines, each after this time, and before them how many were dropped. None where that is more than a device takes without
/// waiting.
fn text_of(time: &[u8], dropped: u64, lines: &[u8]) -> Option<ArrayVec<u8, ROOM>> {
    let mut text = ArrayVec::new();
    if dropped > 0 {
        text.try_extend_from_slice(time).ok()?;
        text.try_extend_from_slice(count_line(dropped, "", "dropped").as_str().as_bytes())
            .ok()?;
    }
    for line in lines.split_inclusive(|byte| *byte == b'\n') {
        text.try_extend_from_slice(time).ok()?;
        text.try_extend_from_slice(line).ok()?;
    }
    Some(text)
}

/// A way to the log: that of faults, or that of other lines. What it took no contract sees, since others write there too.
#[derive(Drop)]
pub(crate) struct LogWriter<'a, R, D> {
    rt: &'a R,
    log: &'a Mutex<Log<D>>,
    /// How many milliseconds a line may wait at most. None: without end.
    patience: Option<u16>,
    /// Whether each line begins with the time.
    has_times: bool,
    /// How many calls have failed.
    failures: u64,
}

impl<'a, R, D> LogWriter<'a, R, D> {
    /// An outlet to this log, which waits until the device takes the line.
    pub(crate) fn new(rt: &'a R, log: &'a Mutex<Log<D>>) -> LogWriter<'a, R, D> {
        LogWriter {
            rt,
            log,
            patience: None,
            has_times: false,
            failures: 0,
        }
    }
}

impl<R: Wait + Clock, D: LineDevice> LogWriter<'_, R, D> {
    /// Reports at the end how many lines were dropped after the last one that was logged, if any were.
    pub(crate) fn finish(&self) {
        if let Some(patience) = self.patience {
            let time = self.time();
            let mut log = self.log.lock(self.rt);
            let _ = log.finish(time.as_str().as_bytes(), patience);
        }
    }

    /// Writes lines to the log, by its rules where it has a limit.
    fn report(&self, lines: &[u8]) -> Result<(), DeviceFault> {
        let time = self.time();
        let mut log = self.log.lock(self.rt);
        match self.patience {
            Some(patience) => log.append(time.as_str().as_bytes(), lines, patience),
            None => log.write_all(lines, None),
        }
    }

    /// What stands before each line.
    fn time(&self) -> ArrayString<TIME> {
        match self.rt.since_1970() {
            Ok(now) if self.has_times => time_text(now).unwrap_or_default(),
            _ => ArrayString::new(),
        }
    }
}

impl<R: Wait + Clock, D: LineDevice> Outlet for LogWriter<'_, R, D> {
    ghost contents = { λ _. None };

    ghost failures = { λ s. s.failures };

    ghost is_ended = { λ _. true };

    fn push(&mut self, bytes: &[u8]) -> Result<usize, DeviceFault> {
        if self.failures < u64::MAX && self.report(bytes).is_ok() {
            return Ok(bytes.len());
        }
        self.failures = self.failures.saturating_add(1);
        Err(DeviceFault)
    }

    /// What was logged stands on the device.
    fn end(&mut self) -> Result<(), DeviceFault> {
        (self.failures < u64::MAX).then_some(()).ok_or(DeviceFault)
    }
}

impl<R: Wait + Clock, D: LineDevice> LogOutlet for LogWriter<'_, R, D> {
    fn limit(&mut self, milliseconds: u16, is_timed: bool) {
        self.patience = Some(milliseconds);
        self.has_times = is_timed;
    }
}
