//! The files of the inputs of `live`: all are opened, in order, and none but the history's own may be the history's.
ghost use Rattle.std.specs.Prelude.{◌≡◌, ◌++◌, [], IfOk, IfErr, map, is_some};
ghost use Rattle.pit_step.specs.Steps.{IsResultOf};
ghost use Rattle.pit.specs.OpenFiles.{all_files};
ghost use Rattle.pit.specs.LiveRun.{live_files_step, known_live, IsStreamsFault};

use crate::live_disk::LiveDisk;
use crate::merge_files::source_if;
use crate::source_files::{PitFiles, SourceFiles, open_sources};
use crate::sources::live_sources;
use pit_cli::CliFault;
use pit_command::{LiveWords, Origin};
use pit_file::{FileFault, HistoryFile};
use pit_num::In;
use std::alloc::Global;
use std::io::Read;
use std::marker::Model;

/// The open files of a live workspace. They stay open as long as planners may open files to write.
#[derive(Drop)]
pub struct LiveFiles<F: Read + Drop> {
    /// The model.
    pub model: In<F>,
    /// Its precedences.
    pub precedence: In<F>,
    /// The blocks' places.
    pub blocks: Option<In<F>>,
    /// The history that is carried on.
    pub history: Option<In<F>>,
}

impl<F: Read + Drop> Model for LiveFiles<F> {
    ghost use Rattle.std.specs.Prelude.{option_map};
    ghost use Rattle.pit.specs.LiveRun.{KnownLive};

    ghost Value = { KnownLive };

    ghost view = { λ m. record {
      model = F.remaining m.model.reader;
      precedence = F.remaining m.precedence.reader;
      blocks = option_map (λ source. F.remaining source.reader) m.blocks;
      history = option_map (λ source. F.remaining source.reader) m.history;
    } };
}

/// Opens the file of each input, in order, and tells the planners' streams of them. The history is one of them where it is there. The first that can't
/// be opened is answered, or else one that the history is written to.
pub fn live_files<D: LiveDisk>(
    alloc: Global,
    disk: &D,
    words: &LiveWords<'_>,
    history: &HistoryFile<D::Names>,
    is_there: bool,
) -> Result<(LiveFiles<D::File>, D::Streams), CliFault>
    ensures ok { IfOk result (λ opened. (live_files_step (D.told disk.now) words.now is_there).Gives tt opened.0) }
    ensures err { IfErr result ((live_files_step (D.told disk.now) words.now is_there).Fails tt) }
{
    let origin = Origin::Continued(words.history);
    let files = match open_sources(alloc, disk, &origin, &live_sources(words, is_there)) {
        Ok(files) => files,
        Err(fault) => return Err(fault),
    };
    let streams = match told_streams(disk, words, history, &files.pit) {
        Ok(streams) => streams,
        Err(fault) => return Err(fault),
    };
    Ok((in_place(files), streams))
}

fn told_streams<D: LiveDisk>(
    disk: &D,
    words: &LiveWords<'_>,
    history: &HistoryFile<D::Names>,
    pit: &PitFiles<'_, D::File>,
) -> Result<D::Streams, CliFault>
    ensures { IfErr result IsStreamsFault }
{
    match disk.streams(words.streams, history, pit) {
        Ok(streams) => Ok(streams),
        Err(FileFault::NoMemory) => Err(CliFault::NoMemory),
        Err(_) => Err(CliFault::CannotWrite),
    }
}

/// The open files as sources. There are no files behind the history's.
fn in_place<F: Read + Drop>(files: SourceFiles<'_, F>) -> LiveFiles<F>
    requires { files.parts.items ≡ [] }
    ensures known { known_live result ≡ map (λ file. F.remaining file.file) (all_files files.entry) }
    ensures blocks { is_some result.blocks ≡ is_some files.entry.pit.blocks }
    ensures history { is_some result.history ≡ is_some files.entry.begun }
{
    let SourceFiles {
        pit,
        begun,
        parts: _,
    } = files;
    LiveFiles {
        model: In::new(pit.model.file),
        precedence: In::new(pit.precedence.file),
        blocks: source_if(pit.blocks),
        history: source_if(begun),
    }
}
