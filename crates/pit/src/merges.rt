//! The run of `merge` on the files that the words name. A history that is carried on is held from before the first input is opened; another is once what is
//! begun with is parsed.
ghost use Rattle.std.specs.Prelude.{◌≡◌, true, false, is_some};
ghost use Rattle.pit_step.specs.Steps.{IsResultOf};
ghost use Rattle.pit_step.specs.Devices.{writing_of, known_if};
ghost use Rattle.pit_output.specs.Outputs.{keeping_of};
ghost use Rattle.pit.specs.Histories.{is_continued};
ghost use Rattle.pit.specs.MergeRun.{merge_by, merge_options, held_merge};

use crate::files::Disk;
use crate::histories::{is_continued, is_history_there, let_go, prepared};
use crate::merge_files::merge_files;
use crate::sources::merge_sources;
use pit_cli::{CliFault, Keys, MergeInput, MergeOptions, Status, merge};
use pit_command::MergeWords;
use pit_num::Sink;
use std::alloc::Global;

/// Where there is no answer, no new file of a history is left.
pub fn run_merge<D: Disk, W: Sink, L: Sink>(
    alloc: Global,
    keys: Keys,
    disk: &D,
    words: &MergeWords<'_>,
    out: &mut W,
    report: &mut L,
) -> Result<Status, CliFault>
    ensures { let written = writing_of (W.contents out.old) (W.contents out.new) (W.has_failed out.new) in
        let lines = writing_of (L.contents report.old) (L.contents report.new) (L.has_failed report.new) in
        IsResultOf (merge_by (is_continued words.now.origin) (D.told disk.now) words.now (merge_options keys words.now) written lines ((out.new ≡ out.old) × (report.new ≡ report.old))) tt result }
{
    let options = MergeOptions {
        from: words.from,
        is_partial: words.is_partial,
        keys,
    };
    if is_continued(&words.origin) {
        return carry_on(alloc, disk, words, options, out, report);
    }
    begin(alloc, disk, words, options, out, report)
}

fn begin<D: Disk, W: Sink, L: Sink>(
    alloc: Global,
    disk: &D,
    words: &MergeWords<'_>,
    options: MergeOptions,
    out: &mut W,
    report: &mut L,
) -> Result<Status, CliFault>
    ensures { let written = writing_of (W.contents out.old) (W.contents out.new) (W.has_failed out.new) in
        let lines = writing_of (L.contents report.old) (L.contents report.new) (L.has_failed report.new) in
        IsResultOf (merge_by false (D.told disk.now) words.now options written lines ((out.new ≡ out.old) × (report.new ≡ report.old))) tt result }
{
    let mut files = match merge_files(alloc, disk, words, false) {
        Ok(files) => files,
        Err(fault) => return Err(fault),
    };
    let input = match MergeInput::read(
        alloc,
        alloc,
        &mut files.model,
        &mut files.precedence,
        &mut files.start,
        false,
    ) {
        Ok(input) => input,
        Err(fault) => return Err(fault),
    };
    let mut history = match prepared(disk, &words.origin) {
        Ok(history) => history,
        Err(fault) => return Err(fault),
    };
    let answer = merge(
        alloc,
        alloc,
        input,
        &mut files.edits,
        options,
        out,
        report,
        &mut history,
    );
    let_go(disk, &merge_sources(words, false), &mut history, &answer);
    answer
}

fn carry_on<D: Disk, W: Sink, L: Sink>(
    alloc: Global,
    disk: &D,
    words: &MergeWords<'_>,
    options: MergeOptions,
    out: &mut W,
    report: &mut L,
) -> Result<Status, CliFault>
    ensures { let written = writing_of (W.contents out.old) (W.contents out.new) (W.has_failed out.new) in
        let lines = writing_of (L.contents report.old) (L.contents report.new) (L.has_failed report.new) in
        IsResultOf (merge_by true (D.told disk.now) words.now options written lines ((out.new ≡ out.old) × (report.new ≡ report.old))) tt result }
{
    let mut history = match prepared(disk, &words.origin) {
        Ok(history) => history,
        Err(fault) => return Err(fault),
    };
    let answer = merge_held(alloc, disk, words, options, out, report, &mut history);
    let_go(disk, &merge_sources(words, false), &mut history, &answer);
    answer
}

/// The same, once the history is held.
fn merge_held<D: Disk, W: Sink, L: Sink>(
    alloc: Global,
    disk: &D,
    words: &MergeWords<'_>,
    options: MergeOptions,
    out: &mut W,
    report: &mut L,
    history: &mut Option<D::History>,
) -> Result<Status, CliFault>
    ensures done { let written = writing_of (W.contents out.old) (W.contents out.new) (W.has_failed out.new) in
        let lines = writing_of (L.contents report.old) (L.contents report.new) (L.has_failed report.new) in
        let kept = known_if (λ old new. keeping_of (D.History.state old) (D.History.state new)) history.old history.new in
        IsResultOf (held_merge (D.told disk.now) words.now options written lines kept ((out.new ≡ out.old) × (report.new ≡ report.old))) tt result }
    ensures same { is_some history.new ≡ is_some history.old }
{
    let is_there = is_history_there(disk, &words.origin);
    let mut files = match merge_files(alloc, disk, words, is_there) {
        Ok(files) => files,
        Err(fault) => return Err(fault),
    };
    let input = match MergeInput::read(
        alloc,
        alloc,
        &mut files.model,
        &mut files.precedence,
        &mut files.start,
        true,
    ) {
        Ok(input) => input,
        Err(fault) => return Err(fault),
    };
    merge(
        alloc,
        alloc,
        input,
        &mut files.edits,
        options,
        out,
        report,
        history,
    )
}
