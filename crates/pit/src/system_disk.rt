ghost use Rattle.pit.specs.Files.{nothing_told};

use crate::files::Disk;
use crate::live_disk::LiveDisk;
use crate::source_files::{OpenFile, PitFiles};
use crate::system_streams::SystemStreams;
use pit_file::{
    FileFault, FileIdentity, HistoryFile, HistoryOutput, HostNames, Kind, Paths, Place, Stream,
    found, identity_behind, identity_of, is_among, open_stream,
};
use pit_num::{Failed, Out};
use std::fs::File;
use std::io;

/// The system's files, of which nothing is told.
#[derive(Drop)]
pub struct SystemDisk<'a> {
    rt: &'a HostRuntime,
}

impl<'a> SystemDisk<'a> {
    /// The system's files.
    pub fn new(rt: &'a HostRuntime) -> SystemDisk<'a> {
        SystemDisk { rt }
    }
}

/// A folder opens too, and fails once it is read.
impl<'a> Disk for SystemDisk<'a> {
    type File = File;

    type History = HistoryOutput<Out<File>, HostNames<'a>>;

    ghost told = { λ _. nothing_told };

    fn open(&self, path: &str) -> io::Result<File> {
        File::open(self.rt, path)
    }

    fn is_there(&self, path: &str) -> bool {
        match self.rt.leads_to(path) {
            Ok(Kind::Nothing) => false,
            _ => true,
        }
    }

    fn meets(&self, history: &str, _input: &str, file: &File) -> Result<bool, FileFault> {
        let name = match found(self.rt, history) {
            Ok(Place::File(name)) => name,
            Err(FileFault::NoMemory) => return Err(FileFault::NoMemory),
            _ => return Ok(false),
        };
        let names = HostNames::new(self.rt, name)?;
        match is_one_of(&names, file) {
            Ok(is_one) => Ok(is_one),
            Err(_) => Err(FileFault::CannotWrite),
        }
    }

    fn prepare(
        &self,
        path: &str,
        is_carried_on: bool,
    ) -> Result<HistoryOutput<Out<File>, HostNames<'a>>, FileFault> {
        match found(self.rt, path)? {
            Place::File(name) => {
                let file = prepared_file(self.rt, name)?;
                Ok(HistoryOutput::File(file))
            }
            Place::Stream => {
                let sink = opened_stream(self.rt, path, is_carried_on)?;
                Ok(HistoryOutput::Stream(Stream { sink }))
            }
        }
    }

    fn is_new_file(&self, history: &HistoryOutput<Out<File>, HostNames<'a>>, path: &str) -> bool {
        let HistoryOutput::File(file) = history else {
            return false;
        };
        match file.names().new_identity() {
            Ok(new) => is_at(self.rt, path, new),
            Err(_) => false,
        }
    }

    fn abandon(&self, history: &mut HistoryOutput<Out<File>, HostNames<'a>>) {
        match history {
            HistoryOutput::Stream(_) => {}
            HistoryOutput::File(file) => file.abandon(),
        }
    }
}

impl<'a> LiveDisk for SystemDisk<'a> {
    type Names = HostNames<'a>;

    type Streams = SystemStreams<'a>;

    fn hold(&self, path: &str) -> Result<HistoryFile<HostNames<'a>>, FileFault> {
        match found(self.rt, path)? {
            Place::File(name) => prepared_file(self.rt, name),
            Place::Stream => Err(FileFault::CannotWrite),
        }
    }

    fn is_held_at(&self, file: &HistoryFile<HostNames<'a>>, path: &str) -> bool {
        match file.names().new_identity() {
            Ok(new) => is_at(self.rt, path, new),
            Err(_) => false,
        }
    }

    fn streams(
        &self,
        words: Option<&[&str]>,
        file: &HistoryFile<HostNames<'a>>,
        pit: &PitFiles<'_, File>,
    ) -> Result<SystemStreams<'a>, FileFault> {
        let inputs = match identities(pit) {
            Ok(inputs) => inputs,
            Err(_) => return Err(FileFault::CannotWrite),
        };
        SystemStreams::new(self.rt, words, file.names(), inputs)
    }
}

/// What the open files of a pit are known by.
fn identities(pit: &PitFiles<'_, File>) -> Result<[Option<FileIdentity>; 3], Failed> {
    let model = identity_of(&pit.model.file)?;
    let precedence = identity_of(&pit.precedence.file)?;
    Ok([model, precedence, identity_if(&pit.blocks)?])
}

fn identity_if(file: &Option<OpenFile<'_, File>>) -> Result<Option<FileIdentity>, Failed> {
    match file {
        Some(open) => identity_of(&open.file),
        None => Ok(None),
    }
}

/// Whether an open file is the history's or the new one.
fn is_one_of(names: &HostNames<'_>, file: &File) -> Result<bool, Failed> {
    let own = names.history_identity()?;
    let new = names.new_identity()?;
    Ok(is_among(identity_of(file)?, &[own, new]))
}

/// The file of this name, in which no link is left, ready to be replaced.
fn prepared_file<'a>(
    rt: &'a HostRuntime,
    name: String,
) -> Result<HistoryFile<HostNames<'a>>, FileFault> {
    let mut file = HistoryFile::new(HostNames::new(rt, name)?);
    file.prepare()?;
    Ok(file)
}

/// What a path leads to, which is no file, and keeps what it holds. A history that is carried on can't be written to it.
fn opened_stream(
    rt: &HostRuntime,
    path: &str,
    is_carried_on: bool,
) -> Result<Out<File>, FileFault> {
    if is_carried_on {
        return Err(FileFault::CannotWrite);
    }
    match open_stream(rt, path) {
        Ok(stream) => Ok(stream),
        Err(_) => Err(FileFault::CannotWrite),
    }
}

/// Whether a path leads to the file of this identity.
fn is_at(rt: &HostRuntime, path: &str, file: Option<FileIdentity>) -> bool {
    match identity_behind(rt, path) {
        Ok(found) => is_among(file, &[found]),
        Err(_) => false,
    }
}
