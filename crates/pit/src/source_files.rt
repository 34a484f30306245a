//! The open files of a plan or a merge: all are opened, in order, and none may be the history's.
ghost use Rattle.std.specs.Prelude.{◌≡◌, ◌≢◌, ◌++◌, ◌∷◌, [], Some, true, None, IfOk, IfErr, OnOk, MatchResult, map, is_some, option_to_list};
ghost use Rattle.pit_step.specs.declared.fault.CliFault.TheVariants.{NoMemory};
ghost use Rattle.pit_step.specs.Steps.{in_turn, may_step};
ghost use Rattle.pit.specs.Files.{path_if, file_if, open_each};
ghost use Rattle.pit.specs.Histories.{kept_path, AreApart, IsMeeting, IsMet, file_meets};
ghost use Rattle.pit.specs.Sources.{file_by, pit_files, part_files, in_order};
ghost use Rattle.pit.specs.OpenFiles.{AreOpen, all_pit, all_files, name_of, files_step};

use crate::files::{Disk, file_of};
use crate::histories::kept_path;
use crate::sources::{Parts, Sources, named};
use pit_cli::{CliFault, Input};
use pit_command::Origin;
use pit_file::FileFault;
use std::alloc::Global;
use std::io::Read;

/// An open file, with its input and its path.
#[derive(Drop)]
pub struct OpenFile<'a, F: Read + Drop> {
    /// Whose file it is.
    pub input: Input,
    /// Where it was opened.
    pub path: &'a str,
    /// What is read.
    pub file: F,
}

/// The open files of a pit.
#[derive(Drop)]
pub struct PitFiles<'a, F: Read + Drop> {
    /// The model.
    pub model: OpenFile<'a, F>,
    /// Its precedences.
    pub precedence: OpenFile<'a, F>,
    /// The blocks' places.
    pub blocks: Option<OpenFile<'a, F>>,
}

/// The open files of a plan or a merge.
#[derive(Drop)]
pub struct SourceFiles<'a, F: Read + Drop> {
    /// Those of the pit.
    pub pit: PitFiles<'a, F>,
    /// What is begun with.
    pub begun: Option<OpenFile<'a, F>>,
    /// What is done to it, in the order of the words.
    pub parts: Vec<OpenFile<'a, F>>,
}

/// Opens the file of each input, in order. The first that can't be opened is answered, or else one that the history is written to.
pub fn open_sources<'a, D: Disk>(
    alloc: Global,
    disk: &D,
    origin: &Origin<'_>,
    sources: &Sources<'a>,
) -> Result<SourceFiles<'a, D::File>, CliFault>
    ensures opened { IfOk result (λ files. AreOpen D.File.remaining (D.told disk.now) (in_order sources.now) (all_files files)) }
    ensures blocks { IfOk result (λ files. is_some files.pit.blocks ≡ is_some sources.now.blocks) }
    ensures begun { IfOk result (λ files. is_some files.begun ≡ is_some sources.now.begun) }
    ensures apart { OnOk result (AreApart (D.told disk.now) (kept_path origin.now) (in_order sources.now)) }
    ensures err { IfErr result ((files_step (D.told disk.now) origin.now (in_order sources.now)).Fails tt) }
{
    let files = open_all(alloc, disk, sources)?;
    apart_from(disk, kept_path(origin), &files)?;
    Ok(files)
}

/// Opens the file of each input, in order.
fn open_all<'a, D: Disk>(
    alloc: Global,
    disk: &D,
    sources: &Sources<'a>,
) -> Result<SourceFiles<'a, D::File>, CliFault>
    ensures opened { IfOk result (λ files. AreOpen D.File.remaining (D.told disk.now) (in_order sources.now) (all_files files)) }
    ensures blocks { IfOk result (λ files. is_some files.pit.blocks ≡ is_some sources.now.blocks) }
    ensures begun { IfOk result (λ files. is_some files.begun ≡ is_some sources.now.begun) }
    ensures err { IfErr result ((in_turn (may_step NoMemory) (open_each (D.told disk.now) (in_order sources.now))).Fails tt) }
{
    let pit = open_pit(disk, sources.model, sources.precedence, sources.blocks)?;
    let begun = open_if(disk, sources.begun)?;
    let parts = open_parts(alloc, disk, &sources.parts)?;
    Ok(SourceFiles { pit, begun, parts })
}

/// Opens the files of a pit.
pub fn open_pit<'a, D: Disk>(
    disk: &D,
    model: &'a str,
    precedence: &'a str,
    blocks: Option<&'a str>,
) -> Result<PitFiles<'a, D::File>, CliFault>
    ensures opened { IfOk result (λ files. AreOpen D.File.remaining (D.told disk.now) (pit_files model.entry precedence.entry blocks.entry) (all_pit files)) }
    ensures blocks { IfOk result (λ files. is_some files.blocks ≡ is_some blocks.entry) }
    ensures err { IfErr result ((open_each (D.told disk.now) (pit_files model.entry precedence.entry blocks.entry)).Fails tt) }
{
    let model = open_file(disk, Input::Model, model)?;
    let precedence = open_file(disk, Input::Precedence, precedence)?;
    let blocks = open_if(disk, named(Input::Blocks, blocks))?;
    Ok(PitFiles {
        model,
        precedence,
        blocks,
    })
}

/// Opens a file.
fn open_file<'a, D: Disk>(
    disk: &D,
    input: Input,
    path: &'a str,
) -> Result<OpenFile<'a, D::File>, CliFault>
    ensures opened { IfOk result (λ file. AreOpen D.File.remaining (D.told disk.now) ((input, path.now) ∷ []) (file ∷ [])) }
    ensures err { IfErr result ((open_each (D.told disk.now) ((input, path.now) ∷ [])).Fails tt) }
{
    let file = file_of(disk, input, path)?;
    Ok(OpenFile { input, path, file })
}

/// Opens a file that may be left out.
fn open_if<'a, D: Disk>(
    disk: &D,
    source: Option<(Input, &'a str)>,
) -> Result<Option<OpenFile<'a, D::File>>, CliFault>
    ensures opened { IfOk result (λ file. AreOpen D.File.remaining (D.told disk.now) (file_by source.entry) (option_to_list file)) }
    ensures is_there { IfOk result (λ file. is_some file ≡ is_some source.entry) }
    ensures err { IfErr result ((open_each (D.told disk.now) (file_by source.entry)).Fails tt) }
{
    let Some((input, path)) = source else {
        return Ok(None);
    };
    match open_file(disk, input, path) {
        Ok(file) => Ok(Some(file)),
        Err(fault) => Err(fault),
    }
}

/// Opens each of the last files.
fn open_parts<'a, D: Disk>(
    alloc: Global,
    disk: &D,
    parts: &Parts<'a>,
) -> Result<Vec<OpenFile<'a, D::File>>, CliFault>
    ensures opened { IfOk result (λ files. AreOpen D.File.remaining (D.told disk.now) (part_files parts.now) files.items) }
    ensures err { IfErr result ((in_turn (may_step NoMemory) (open_each (D.told disk.now) (part_files parts.now))).Fails tt) }
{
    let paths = parts.paths();
    let mut files = Vec::new(alloc);
    for i in 0..paths.len() {
        let file = open_file(disk, parts.input(i as u64 + 1), paths[i])?;
        push(&mut files, file)?;
    }
    Ok(files)
}

/// Appends an item, or answers that there is no memory.
pub fn push<T: Drop>(list: &mut Vec<T>, item: T) -> Result<(), CliFault>
    ensures ok { OnOk result (list.new.items ≡ list.old.items ++ item ∷ []) }
    ensures err { IfErr result (λ fault. fault ≡ CliFault.NoMemory) }
{
    match list.push(item) {
        Ok(()) => Ok(()),
        Err(_) => Err(CliFault::NoMemory),
    }
}

/// Looks whether one of the open files is the history's, where there is one.
fn apart_from<D: Disk>(
    disk: &D,
    history: Option<&str>,
    files: &SourceFiles<'_, D::File>,
) -> Result<(), CliFault>
    ensures apart { OnOk result (AreApart (D.told disk.now) (path_if history.entry) (map name_of (all_files files.now))) }
    ensures fault { IfErr result (IsMeeting (D.told disk.now) (path_if history.entry) (map name_of (all_files files.now))) }
{
    match history {
        Some(history) => are_apart(disk, history, files),
        None => Ok(()),
    }
}

/// The same of a history that is there.
fn are_apart<D: Disk>(
    disk: &D,
    history: &str,
    files: &SourceFiles<'_, D::File>,
) -> Result<(), CliFault>
    ensures apart { OnOk result (AreApart (D.told disk.now) (Some history.now) (map name_of (all_files files.now))) }
    ensures fault { IfErr result (IsMeeting (D.told disk.now) (Some history.now) (map name_of (all_files files.now))) }
{
    pit_apart(disk, history, &files.pit)?;
    apart_if(disk, history, &files.begun)?;
    apart_each(disk, history, &files.parts)
}

/// The same of the files of a pit.
fn pit_apart<D: Disk>(
    disk: &D,
    history: &str,
    files: &PitFiles<'_, D::File>,
) -> Result<(), CliFault>
    ensures apart { OnOk result (AreApart (D.told disk.now) (Some history.now) (map name_of (all_pit files.now))) }
    ensures fault { IfErr result (IsMeeting (D.told disk.now) (Some history.now) (map name_of (all_pit files.now))) }
{
    apart(disk, history, &files.model)?;
    apart(disk, history, &files.precedence)?;
    apart_if(disk, history, &files.blocks)
}

/// Looks whether an open file is one of the history's. The history that is carried on is the one that may be.
fn apart<D: Disk>(disk: &D, history: &str, file: &OpenFile<'_, D::File>) -> Result<(), CliFault>
    ensures apart { OnOk result (file_meets (D.told disk.now) (Some history.now) (name_of file.now) ≢ Some true) }
    ensures fault { IfErr result (IsMet (file_meets (D.told disk.now) (Some history.now) (name_of file.now))) }
{
    if file.input == Input::History {
        return Ok(());
    }
    match disk.meets(history, file.path, &file.file) {
        Ok(false) => Ok(()),
        Ok(true) => Err(CliFault::HistoryIsInput),
        Err(FileFault::NoMemory) => Err(CliFault::NoMemory),
        Err(_) => Err(CliFault::CannotWrite),
    }
}

/// The same of one that may be left out.
fn apart_if<D: Disk>(
    disk: &D,
    history: &str,
    file: &Option<OpenFile<'_, D::File>>,
) -> Result<(), CliFault>
    ensures apart { OnOk result (AreApart (D.told disk.now) (Some history.now) (map name_of (option_to_list file.now))) }
    ensures fault { IfErr result (IsMeeting (D.told disk.now) (Some history.now) (map name_of (option_to_list file.now))) }
{
    match file {
        Some(file) => apart(disk, history, file),
        None => Ok(()),
    }
}

/// The same of each of several.
fn apart_each<D: Disk>(
    disk: &D,
    history: &str,
    files: &[OpenFile<'_, D::File>],
) -> Result<(), CliFault>
    ensures apart { OnOk result (AreApart (D.told disk.now) (Some history.now) (map name_of files.now)) }
    ensures fault { IfErr result (IsMeeting (D.told disk.now) (Some history.now) (map name_of files.now)) }
{
    for file in files {
        apart(disk, history, file)?;
    }
    Ok(())
}
