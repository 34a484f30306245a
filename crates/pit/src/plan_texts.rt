//! The texts of `plan`: once all files are open, each is read whole.
ghost use Rattle.std.specs.Prelude.{◌≡◌, IfOk, MatchResult, map, is_some, option_map, option_to_list};
ghost use Rattle.pit_step.specs.Steps.{IsResultOf};
ghost use Rattle.pit_opening.specs.Beginnings.{is_carried_on as carries_on};
ghost use Rattle.pit.specs.OpenFiles.{all_files};
ghost use Rattle.pit.specs.PlanRun.{IsRead, IsUnread, begin_text, read_all, read_each, all_texts, texts_step};

use crate::files::Disk;
use crate::histories::is_continued;
use crate::source_files::{OpenFile, PitFiles, SourceFiles, open_sources, push};
use crate::sources::plan_sources;
use pit_cli::{Beginning, CliFault, PlanInput, bytes_of};
use pit_command::PlanWords;
use pit_num::In;
use std::alloc::Global;
use std::io::Read;

/// Opens the file of each input, and then reads each. A history that is carried on is one of them where it is there. The first that can't be opened is
/// answered, or else one that the history is written to, or else the first that can't be read whole.
pub fn plan_input<D: Disk>(
    alloc: Global,
    disk: &D,
    words: &PlanWords<'_>,
    is_there: bool,
) -> Result<PlanInput<Global>, CliFault>
    ensures { IsResultOf (texts_step (D.told disk.now) words.now is_there) tt result }
{
    let files = match open_sources(alloc, disk, &words.origin, &plan_sources(words, is_there)) {
        Ok(files) => files,
        Err(fault) => return Err(fault),
    };
    read_files(alloc, files, is_continued(&words.origin))
}

/// The texts of the files, which are closed then.
fn read_files<F: Read + Drop>(
    alloc: Global,
    files: SourceFiles<'_, F>,
    is_continued: bool,
) -> Result<PlanInput<Global>, CliFault>
    ensures texts { MatchResult result (λ texts. (read_each (map (λ file. (file.input, F.remaining file.file)) (all_files files.entry))).Gives tt (all_texts texts))
        ((read_each (map (λ file. (file.input, F.remaining file.file)) (all_files files.entry))).Fails tt) }
    ensures blocks { IfOk result (λ texts. is_some texts.blocks ≡ is_some files.entry.pit.blocks) }
    ensures begun { IfOk result (λ texts. is_some (begin_text texts.beginning) ≡ is_some files.entry.begun) }
    ensures continued { IfOk result (λ texts. carries_on texts.beginning ≡ is_continued) }
{
    let SourceFiles { pit, begun, parts } = files;
    let PitFiles {
        model,
        precedence,
        blocks,
    } = pit;
    let model = read(alloc, model)?;
    let precedence = read(alloc, precedence)?;
    let blocks = read_if(alloc, blocks)?;
    let begun = read_if(alloc, begun)?;
    let scripts = read_parts(alloc, parts)?;
    let beginning = beginning_of(begun, is_continued);
    Ok(PlanInput::new(model, precedence, blocks, beginning, scripts))
}

/// The bytes of a file.
fn read<F: Read + Drop>(alloc: Global, file: OpenFile<'_, F>) -> Result<Vec<u8>, CliFault>
    ensures { MatchResult result (λ bytes. IsRead (F.remaining file.entry.file) bytes.items) (IsUnread file.entry.input (F.remaining file.entry.file)) }
{
    let mut source = In::new(file.file);
    bytes_of(alloc, &mut source, file.input)
}

/// The bytes of a file that may be left out.
fn read_if<F: Read + Drop>(
    alloc: Global,
    file: Option<OpenFile<'_, F>>,
) -> Result<Option<Vec<u8>>, CliFault>
    ensures bytes { let files = map (λ file. (file.input, F.remaining file.file)) (option_to_list file.entry) in
        MatchResult result (λ bytes. (read_all files).Gives tt (map (λ bytes. bytes.items) (option_to_list bytes))) ((read_all files).Fails tt) }
    ensures is_there { IfOk result (λ bytes. is_some bytes ≡ is_some file.entry) }
{
    let Some(file) = file else {
        return Ok(None);
    };
    match read(alloc, file) {
        Ok(bytes) => Ok(Some(bytes)),
        Err(fault) => Err(fault),
    }
}

/// The bytes of each of the last files.
fn read_parts<F: Read + Drop>(
    alloc: Global,
    files: Vec<OpenFile<'_, F>>,
) -> Result<Vec<Vec<u8>>, CliFault>
    ensures { let files = map (λ file. (file.input, F.remaining file.file)) files.entry.items in
        MatchResult result (λ texts. (read_each files).Gives tt (map (λ bytes. bytes.items) texts.items)) ((read_each files).Fails tt) }
{
    let mut texts = Vec::new(alloc);
    for file in files {
        let bytes = read(alloc, file)?;
        push(&mut texts, bytes)?;
    }
    Ok(texts)
}

/// What a plan begins with, by the text of the input for it.
fn beginning_of(text: Option<Vec<u8>>, is_continued: bool) -> Beginning<Global>
    ensures text { begin_text result ≡ option_map (λ bytes. bytes.items) text }
    ensures continued { carries_on result ≡ is_continued }
{
    match (text, is_continued) {
        (Some(text), true) => Beginning::history(text),
        (Some(text), false) => Beginning::schedule(text),
        (None, true) => Beginning::no_history(),
        (None, false) => Beginning::nothing(),
    }
}
