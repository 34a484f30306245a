//! Paths and files of the system.
ghost use Rattle.std.specs.Prelude.{◌≢◌, None};

use super::fault::FileFault;
use super::identity::FileIdentity;
use super::paths::{Kind, Paths};
use pit_num::{Failed, Out};
use std::fs::{self, File, Metadata, OpenOptions};
use std::io::{self, ErrorKind};
use std::os::unix::fs::MetadataExt;
use std::path::Path;

/// The system's paths, of which nothing is told.
impl Paths for HostRuntime {
    ghost leads_to = { λ _ _. None };

    ghost stands_at = { λ _ _. None };

    ghost resolved = { λ _ _. None };

    ghost in_folder = { λ _ _. None };

    fn leads_to(&self, path: &str) -> Result<Kind, Failed> {
        kind_of(fs::metadata(self, path))
    }

    fn stands_at(&self, path: &str) -> Result<Kind, Failed> {
        kind_of(fs::symlink_metadata(self, path))
    }

    fn resolved(&self, path: &str) -> Result<String, FileFault> {
        match fs::canonicalize(self, path) {
            Ok(name) => Ok(name.into_string()),
            Err(error) => Err(path_fault(&error)),
        }
    }

    fn in_folder(&self, path: &str) -> Result<String, FileFault> {
        match resolved_in_folder(self, path) {
            Ok(name) => Ok(name),
            Err(error) => Err(path_fault(&error)),
        }
    }
}

/// Why a path isn't resolved.
fn path_fault(error: &io::Error) -> FileFault
    ensures { result ≢ FileFault.InUse }
{
    match error.kind() {
        ErrorKind::OutOfMemory => FileFault::NoMemory,
        _ => FileFault::CannotWrite,
    }
}

/// What has this metadata, or nothing where there is none.
pub(crate) fn kind_of(found: io::Result<Metadata>) -> Result<Kind, Failed> {
    match found {
        Ok(found) if found.is_file() => Ok(Kind::Regular),
        Ok(_) => Ok(Kind::Other),
        Err(error) if error.kind() == ErrorKind::NotFound => Ok(Kind::Nothing),
        Err(_) => Err(Failed),
    }
}

/// A path has to end with a name: neither `/` nor `.` or `..` can be one.
fn resolved_in_folder(rt: &HostRuntime, path: &str) -> io::Result<String> {
    let Some((folder, name)) = folder_and_name(path) else {
        return Err(ErrorKind::InvalidInput.into());
    };
    let mut resolved = fs::canonicalize(rt, folder)?;
    resolved.push(name)?;
    Ok(resolved.into_string())
}

/// The folder of a path and the name in it.
fn folder_and_name(path: &str) -> Option<(&str, &str)> {
    let name = Path::new(path).file_name()?;
    let folder = path.strip_suffix(name)?;
    if folder.is_empty() {
        return Some((".", name));
    }
    Some((folder, name))
}

/// Waits until what stands in the folder of a path is on the disk.
pub(crate) fn sync_folder_of(rt: &HostRuntime, path: &str) -> Result<(), Failed> {
    let Some((folder, _)) = folder_and_name(path) else {
        return Err(Failed);
    };
    let Ok(folder) = File::open(rt, folder) else {
        return Err(Failed);
    };
    match folder.sync_all() {
        Ok(()) => Ok(()),
        Err(_) => Err(Failed),
    }
}

/// A stream at a path: what is there is opened to be written, and keeps what it holds.
pub fn open_stream(rt: &HostRuntime, path: &str) -> Result<Out<File>, Failed> {
    match OpenOptions::new().write(true).open(rt, path) {
        Ok(file) => Ok(Out::new(file)),
        Err(_) => Err(Failed),
    }
}

/// What an open file is known by, if it is a regular file.
pub fn identity_of(file: &File) -> Result<Option<FileIdentity>, Failed> {
    match file.metadata() {
        Ok(found) => Ok(identity_in(&found)),
        Err(_) => Err(Failed),
    }
}

/// What the file of a name is known by, if it is a regular file. No link is followed at the name's end.
pub fn identity_at(rt: &HostRuntime, name: &str) -> Result<Option<FileIdentity>, Failed> {
    identity_found(fs::symlink_metadata(rt, name))
}

/// What the file is known by that a path leads to, with all links followed, if it is a regular file. Takes no memory.
pub fn identity_behind(rt: &HostRuntime, path: &str) -> Result<Option<FileIdentity>, Failed> {
    identity_found(fs::metadata(rt, path))
}

/// What the file is known by that has this metadata, or none where there is no file.
fn identity_found(found: io::Result<Metadata>) -> Result<Option<FileIdentity>, Failed> {
    match found {
        Ok(found) => Ok(identity_in(&found)),
        Err(error) if error.kind() == ErrorKind::NotFound => Ok(None),
        Err(_) => Err(Failed),
    }
}

fn identity_in(found: &Metadata) -> Option<FileIdentity> {
    if !found.is_file() {
        return None;
    }
    Some(FileIdentity {
        device: found.dev(),
        number: found.ino(),
    })
}
