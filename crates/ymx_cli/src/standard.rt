//! Standard input, standard output and standard error are open before anything else is. Where one was closed, the first
//! file or socket would get its number, and what is meant for standard error would go there. And standard error can tell
//! whether it takes a line now.

use crate::log::LineDevice;
use libc::net::{POLLNVAL, POLLOUT};
use std::fs::File;
use std::io::Write;
use std::os::fd::IntoRawFd;
use std::rt::Files;
use ymx_model::{DeviceFault, Outlet, WriterOutlet};
use ymx_sockets::events_of;

/// The descriptor of standard error.
const ERRORS: i32 = 2;

/// Opens those of the descriptors 0, 1 and 2 that are closed. False where the system refuses.
pub(crate) fn hold_standard(rt: &impl Files<File = File>) -> bool {
    (0..=ERRORS).all(|number| events_of(number, 0, 0) & POLLNVAL == 0 || fill(rt, number))
}

/// Opens the descriptor of this number, which is the lowest that is closed. It is /dev/null, opened so that a read of
/// standard input, or writes to the others, fails as at a closed one. False where the system refuses.
fn fill(rt: &impl Files<File = File>, number: i32) -> bool {
    let is_input = number == 0;
    let mut how = File::options();
    how.read(!is_input).write(is_input);
    match how.open(rt, "/dev/null") {
        Ok(file) => file.into_raw_fd() == number,
        Err(_) => false,
    }
}

/// Standard error as a device for lines. No contract says what it takes. A pipe that others fill too, or a terminal that
/// takes less than a line, may still keep a write waiting.
#[derive(Drop)]
pub(crate) struct StandardError<W> {
    pub(crate) outlet: WriterOutlet<W>,
}

impl<W: Write> LineDevice for StandardError<W> {
    fn write(&mut self, bytes: &[u8], patience: Option<u16>) -> Result<usize, DeviceFault> {
        let is_full = |limit| events_of(ERRORS, POLLOUT, i32::from(limit)) & POLLOUT == 0;
        if patience.is_some_and(is_full) {
            return Err(DeviceFault);
        }
        self.outlet.push(bytes)
    }
}
