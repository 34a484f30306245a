//! The inputs, looked at again for the lines that explain a fault.
use crate::histories::kept_path;
use crate::paths::path_of;
use pit_cli::Input;
use pit_command::Command;
use pit_explain::{Given, holder_in};
use pit_file::{HostNames, Place, found};
use std::io::ErrorKind;
use std::path::Path;
use std::{fs, io};

/// What the words ask for, and the files that they name.
#[derive(Drop)]
pub struct Looked<'a, 'b> {
    rt: &'a HostRuntime,
    command: &'a Command<'b>,
}

impl<'a, 'b> Looked<'a, 'b> {
    /// The files that a command names.
    pub fn new(rt: &'a HostRuntime, command: &'a Command<'b>) -> Looked<'a, 'b> {
        Looked { rt, command }
    }

    /// Whether it is `value` or `check`, whose answer may hang on what the model passes over.
    pub fn tells_value(&self) -> bool {
        matches!(self.command, Command::Value(_) | Command::Check(_))
    }
}

/// Only a regular file is read again: a pipe gave what it had.
impl<'a, 'b> Given for Looked<'a, 'b> {
    fn path(&self, input: Input) -> Option<&str> {
        path_of(self.command, input)
    }

    fn history(&self) -> Option<&str> {
        match self.command {
            Command::Plan(words) => kept_path(&words.origin),
            Command::Merge(words) => kept_path(&words.origin),
            Command::Live(words) => Some(words.history),
            _ => None,
        }
    }

    fn history_refusal(&self) -> Option<ErrorKind> {
        let path = self.history()?;
        if let Ok(found) = fs::metadata(self.rt, path) {
            return found.is_dir().then_some(ErrorKind::IsADirectory);
        }
        let name = Path::new(path).file_name()?;
        let folder = path.strip_suffix(name)?;
        if folder.is_empty() {
            return None;
        }
        Some(fs::metadata(self.rt, folder).err()?.kind())
    }

    fn holder(&self) -> Option<u32> {
        let Ok(Place::File(name)) = found(self.rt, self.history()?) else {
            return None;
        };
        let names = HostNames::new(self.rt, name).ok()?;
        let new = names.new_identity().ok()??;
        let locks = fs::read(self.rt, "/proc/locks").ok()?;
        let process = holder_in(&locks, new.number)?;
        // a lock outlives the process that took it where another has the file open too
        let place = format!(in self.rt.alloc(); "/proc/{process}").ok()?;
        fs::metadata(self.rt, place.as_str()).ok()?;
        Some(process)
    }

    fn read(&self, input: Input) -> io::Result<Vec<u8>> {
        let Some(path) = path_of(self.command, input) else {
            return Err(io::Error::from(ErrorKind::NotFound));
        };
        let found = fs::metadata(self.rt, path)?;
        if found.is_dir() {
            return Err(io::Error::from(ErrorKind::IsADirectory));
        }
        if !found.is_file() {
            return Err(io::Error::from(ErrorKind::Other));
        }
        fs::read(self.rt, path)
    }
}
