//! What `live` asks of the place where files are found: the file of its history, and the streams of its planners.
ghost use Rattle.std.specs.Prelude.{◌≡◌, ◌≢◌, true, None, Some, IfOk, IfErr, IfSome, OnOk, length};
ghost use Rattle.pit_file.specs.declared.fault.FileFault.{FileFault};
ghost use Rattle.pit.specs.LiveRun.{IsUnheld};

use crate::files::Disk;
use crate::source_files::PitFiles;
use pit_cli::CliFault;
use pit_command::LiveWords;
use pit_file::{FileFault, HistoryFile, Streams, TwoNames};

/// Files that are found by their paths, of which one may be kept open, and streams.
pub trait LiveDisk: Disk {
    /// The names of a history.
    type Names: TwoNames + Drop + Send;

    /// The streams of planners.
    type Streams: Streams + Sync + Drop;

    /// Makes the file of a history ready, of which nothing else has stood at its name. There may be no memory for the names.
    fn hold(&self, path: &str) -> Result<HistoryFile<Self::Names>, FileFault>
        ensures new { IfOk result (λ file. IfSome (Self.Names.stood file.names) (λ all. length all ≡ 1)) }
        ensures ready { OnOk result (IfSome ((Self.told self.now).refusal true path.now) (λ told. told ≡ None)) }
        ensures fault { IfErr result (λ fault. fault ≢ FileFault.NoMemory → IfSome ((Self.told self.now).refusal true path.now) (λ told. told ≡ Some fault)) };

    /// Whether a path leads to the new file of a history.
    fn is_held_at(&self, file: &HistoryFile<Self::Names>, path: &str) -> bool;

    /// The streams that the words name, of which none is written that is the history, its new file, or an open file of the pit. There may be no
    /// memory for their names.
    fn streams(
        &self,
        words: Option<&[&str]>,
        file: &HistoryFile<Self::Names>,
        pit: &PitFiles<'_, Self::File>,
    ) -> Result<Self::Streams, FileFault>
        ensures { IfErr result (λ fault. fault ≢ FileFault.InUse) };
}

/// The file of the history that is carried on, made ready.
pub fn held<D: LiveDisk>(disk: &D, words: &LiveWords<'_>) -> Result<HistoryFile<D::Names>, CliFault>
    ensures new { IfOk result (λ file. IfSome (D.Names.stood file.names) (λ all. length all ≡ 1)) }
    ensures ready { OnOk result (IfSome ((D.told disk.now).refusal true words.now.history.now) (λ told. told ≡ None)) }
    ensures fault { IfErr result (IsUnheld ((D.told disk.now).refusal true words.now.history.now)) }
{
    match disk.hold(words.history) {
        Ok(file) => Ok(file),
        Err(FileFault::InUse) => Err(CliFault::HistoryInUse),
        Err(FileFault::CannotWrite) => Err(CliFault::CannotWrite),
        Err(FileFault::NoMemory) => Err(CliFault::NoMemory),
    }
}

/// Removes the new file of the history where no planner sat down, unless that file is an input.
pub fn let_unkept_go<D: LiveDisk>(
    disk: &D,
    words: &LiveWords<'_>,
    unkept: Option<HistoryFile<D::Names>>,
) {
    let Some(mut file) = unkept else {
        return;
    };
    if !is_given(disk, words, &file) {
        file.abandon();
    }
}

fn is_given<D: LiveDisk>(disk: &D, words: &LiveWords<'_>, file: &HistoryFile<D::Names>) -> bool {
    if disk.is_held_at(file, words.model) || disk.is_held_at(file, words.precedence) {
        return true;
    }
    match words.blocks {
        Some(path) => disk.is_held_at(file, path),
        None => false,
    }
}
