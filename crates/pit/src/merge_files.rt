//! The files of the inputs of `merge`: all are opened, in the order of the inputs, and none may be the history's.
ghost use Rattle.std.specs.Prelude.{◌≡◌, false, IfOk, IfErr, map, option_map, is_some};
ghost use Rattle.pit_step.specs.Steps.{IsResultOf};
ghost use Rattle.pit.specs.OpenFiles.{all_files};
ghost use Rattle.pit.specs.MergeRun.{known_files, merge_files_step};

use crate::files::Disk;
use crate::source_files::{OpenFile, SourceFiles, open_sources, push};
use crate::sources::merge_sources;
use pit_cli::CliFault;
use pit_command::MergeWords;
use pit_num::In;
use std::alloc::Global;
use std::io::Read;
use std::marker::Model;

/// The open files of a merge.
#[derive(Drop)]
pub struct MergeFiles<F: Read + Drop> {
    /// The model.
    pub model: In<F>,
    /// Its precedences.
    pub precedence: In<F>,
    /// What is begun with.
    pub start: Option<In<F>>,
    /// The edits, in the order of the words.
    pub edits: Vec<In<F>>,
}

impl<F: Read + Drop> Model for MergeFiles<F> {
    ghost use Rattle.std.specs.Prelude.{map, option_map};
    ghost use Rattle.pit.specs.MergeRun.{MergeFiles as Files};

    ghost Value = { Files };

    ghost view = { λ m. record {
      model = F.remaining m.model.reader;
      precedence = F.remaining m.precedence.reader;
      start = option_map (λ source. F.remaining source.reader) m.start;
      edits = map (λ source. F.remaining source.reader) m.edits.items;
    } };
}

/// Opens the file of each input, in order. A history that is carried on is one of them where it is there. The first that can't be opened is answered, or
/// else one that the history is written to.
pub fn merge_files<D: Disk>(
    alloc: Global,
    disk: &D,
    words: &MergeWords<'_>,
    is_there: bool,
) -> Result<MergeFiles<D::File>, CliFault>
    ensures { IsResultOf (merge_files_step (D.told disk.now) words.now is_there) tt result }
{
    let files = match open_sources(alloc, disk, &words.origin, &merge_sources(words, is_there)) {
        Ok(files) => files,
        Err(fault) => return Err(fault),
    };
    in_place(alloc, files)
}

/// The open files as sources. There are no places of blocks.
fn in_place<F: Read + Drop>(
    alloc: Global,
    files: SourceFiles<'_, F>,
) -> Result<MergeFiles<F>, CliFault>
    requires { is_some files.pit.blocks ≡ false }
    ensures ok { IfOk result (λ all. (known_files all ≡ map (λ file. F.remaining file.file) (all_files files.entry)) × (is_some all.start ≡ is_some files.entry.begun)) }
    ensures err { IfErr result (λ fault. fault ≡ CliFault.NoMemory) }
{
    let SourceFiles { pit, begun, parts } = files;
    let edits = each_in(alloc, parts)?;
    Ok(MergeFiles {
        model: In::new(pit.model.file),
        precedence: In::new(pit.precedence.file),
        start: source_if(begun),
        edits,
    })
}

/// A file as a source, if it is there.
pub fn source_if<F: Read + Drop>(file: Option<OpenFile<'_, F>>) -> Option<In<F>>
    ensures { option_map (λ source. F.remaining source.reader) result ≡ option_map (λ file. F.remaining file.file) file.entry }
{
    match file {
        Some(file) => Some(In::new(file.file)),
        None => None,
    }
}

/// The files as sources.
fn each_in<F: Read + Drop>(
    alloc: Global,
    files: Vec<OpenFile<'_, F>>,
) -> Result<Vec<In<F>>, CliFault>
    ensures ok { IfOk result (λ sources. map (λ source. F.remaining source.reader) sources.items ≡ map (λ file. F.remaining file.file) files.entry.items) }
    ensures err { IfErr result (λ fault. fault ≡ CliFault.NoMemory) }
{
    let mut sources = Vec::new(alloc);
    for file in files {
        push(&mut sources, In::new(file.file))?;
    }
    Ok(sources)
}
