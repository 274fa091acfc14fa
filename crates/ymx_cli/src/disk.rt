//! The files of the system.

ghost use Rattle.std.specs.Prelude.{None};

use crate::command::FileOpener;
use std::fs::File;
use std::io::{self, ErrorKind};
use std::rt::Files;
use ymx_model::ReaderInlet;

/// The files of the system. No contract says what they hold, nor which there are.
#[derive(Drop)]
pub struct Disk<'a, T> {
    pub rt: &'a T,
}

impl<T: Files<File = File>> FileOpener for Disk<'_, T> {
    type File = ReaderInlet<File>;

    ghost held = { λ s name. None };

    fn open(&self, name: &str) -> Result<ReaderInlet<File>, &'static str> {
        let reader = File::open(self.rt, name).map_err(|error| match error.kind() {
            ErrorKind::NotFound => "no such file",
            ErrorKind::PermissionDenied => "permission denied",
            ErrorKind::IsADirectory => "is a folder",
            _ => "",
        })?;
        match reader.metadata() {
            Ok(metadata) if metadata.is_dir() => Err("is a folder"),
            _ => Ok(ReaderInlet {
                reader,
                failures: 0,
            }),
        }
    }
}
