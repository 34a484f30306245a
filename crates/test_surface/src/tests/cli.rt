//! `pit_cli`: the engines, over devices.
use super::num::Shut;
use super::plan::BEHIND;
use super::run::in_turn;
use super::tiny::{BLOCKS, CHANGED, HISTORY, MODEL, PRECEDENCE, SCRIPT, is_written};
use LinesCause::Shape;
use ScriptCause::Order;
use pit_book::{LinesCause, LinesError};
use pit_cli::{
    Beginning, BreachLine, CliFault, Input, Keys, MergeInput, MergeOptions, PlanInput, PlanOptions,
    ReadError, Status, Stream, check, check_all, diff, info, log, merge, plan, read_all, replay,
    show, table, value, write_report,
};
use pit_num::{In, Out};
use pit_run::{Open, ScriptCause, ScriptError};
use pit_text::{Cause, Key, TextError};
use std::alloc::Global;
use std::process::Abort;
use std::sync::Wait;
use std::thread::Threads;

/// An engine that looks at a pit, and at a schedule or a history of it.
#[derive(Clone, Copy)]
enum View {
    Value,
    Check,
    CheckAll,
    Table,
    Diff,
    Info,
    Show,
    Log,
    Replay,
}

/// What it reads last, its status, and what it writes.
type Row = (View, &'static [u8], Status, &'static [u8]);

/// In the history blocks 0 and 1, which earn 10.5, are in period 0, and block 3, which earns 5 * 0.909090909091, in period 1.
const VIEWS: &[Row] = &[
    (View::Value, b"0 0\n1 0\n2 1\n", Status::Fine, VALUE),
    (View::Check, b"2 0\n", Status::Failed, CHECK),
    (View::CheckAll, HISTORY, Status::Fine, CHECK_ALL),
    (View::Table, HISTORY, Status::Fine, TABLE),
    (View::Diff, OLD, Status::Fine, b""),
    (View::Info, BLOCKS, Status::Fine, INFO),
    (View::Show, OLD, Status::Fine, OLD),
    (View::Log, CHANGED, Status::Failed, b"illegal 1\n"),
    (View::Replay, HISTORY, Status::Fine, REPLAY),
];

/// -10 + 20.5 + 30 * 0.909090909091.
const VALUE: &[u8] = b"37.772727272730000000\n";

/// Block 2 comes after block 0, and at least 1 is wanted in period 1.
const CHECK: &[u8] = b"value 30.000000000000000000\nprecedence 2 0\nshort 0 1 0.000000 1.000000\n";

const CHECK_ALL: &[u8] = b"value 15.045454545455000000\nfine\n";

const TABLE: &[u8] = b"period,blocks,value,cumulative,load_0,lower_0,upper_0,room_0
0,2,10.500000000000000000,10.500000000000000000,4.000000,,4.000000,0.000000
1,1,4.545454545455000000,15.045454545455000000,1.000000,1.000000,4.000000,3.000000
";

/// A solution, with which `diff` compares.
const OLD: &[u8] = b"0 0\n1 0\n";

const INFO: &[u8] = b"blocks 4\nperiods 2\nresources 1\nrate 0.100000\nprofits 4\ncoefficients 4
lower 1\nupper 2\npairs 3\nroots 2\nhighest 2\nplaces 4\nbenches 3\n";

const REPLAY: &[u8] = b"legal 3 2\nvalue 15.045454545455000000\n";

#[test]
fn each_view_is_written(rt: HostRuntime) {
    for row in VIEWS {
        assert!(rt; is_viewed(rt.alloc(), *row));
    }
}

fn is_viewed(alloc: Global, row: Row) -> bool {
    let (view, last, status, text) = row;
    let mut model = In::new(MODEL);
    let mut order = In::new(PRECEDENCE);
    let mut last = In::new(last);
    let mut out = Out::new(Vec::new(alloc));
    let answer = viewed(alloc, view, &mut model, &mut order, &mut last, &mut out);
    let is_text = is_written(out, text);
    answer == Ok(status) && is_text
}

fn viewed(
    alloc: Global,
    view: View,
    model: &mut In<&[u8]>,
    order: &mut In<&[u8]>,
    last: &mut In<&[u8]>,
    out: &mut Out<Vec<u8>>,
) -> Result<Status, CliFault> {
    match view {
        View::Value => value(alloc, model, last, out),
        View::Check => check(alloc, model, order, last, out),
        View::CheckAll => check_all(alloc, alloc, model, order, last, out),
        View::Table => table(alloc, alloc, model, last, out),
        View::Diff => diff(alloc, alloc, model, &mut In::new(OLD), last, out),
        View::Info => info(alloc, model, order, &mut Some(In::new(BLOCKS)), out),
        View::Show => show(alloc, alloc, model, last, None, out),
        View::Log => log(alloc, alloc, model, order, last, true, out),
        View::Replay => replay(alloc, alloc, model, order, last, out),
    }
}

#[test]
fn an_engine_may_have_a_fault(rt: HostRuntime) {
    let (alloc, file) = (rt.alloc(), Input::Model);
    let unread = value(alloc, &mut Shut, &mut Shut, &mut Shut);
    assert!(rt; unread == Err(CliFault::CannotRead(file)));
    let faulty = value(alloc, &mut In::new(b"".as_slice()), &mut Shut, &mut Shut);
    let (line, cause) = (1, Cause::MissingHeader(Key::Kind));
    let error = TextError { line, cause };
    assert!(rt; faulty == Err(CliFault::Text { file, error }));
    let unwritten = value(alloc, &mut In::new(MODEL), &mut In::new(OLD), &mut Shut);
    assert!(rt; unwritten == Err(CliFault::CannotWrite));
}

/// What a plan begins with, whether its script is done in turn, the script, and the status and the report.
type Planned = (Begins, bool, &'static [u8], Status, &'static [u8]);

/// With a schedule or a history, which is that of the small pit.
#[derive(Clone, Copy)]
enum Begins {
    Nothing,
    NoHistory,
    Schedule,
    History,
}

/// Each leaves blocks 0 and 1 in period 0 and block 3 in period 1. A job that is refused counts.
const PLANS: &[Planned] = &[
    (Begins::Nothing, false, SCRIPT, Status::Failed, REPORT),
    (Begins::NoHistory, true, SCRIPT, Status::Failed, NEW_REPORT),
    (Begins::Schedule, true, b"", Status::Fine, NO_REPORT),
    (Begins::History, true, b"", Status::Fine, NO_REPORT),
];

const REPORT: &[u8] = b"planner 1 job 1 committed 1 tries 1
planner 1 job 2 refused over 0 0 5.000000 4.000000 tries 1
planner 1 job 3 committed 2 tries 1\nvalue 15.045454545455000000\n";

const NEW_REPORT: &[u8] = b"history new\nplanner 1 job 1 committed 1 tries 1
planner 1 job 2 refused over 0 0 5.000000 4.000000 tries 1
planner 1 job 3 committed 2 tries 1\nvalue 15.045454545455000000\n";

const NO_REPORT: &[u8] = b"value 15.045454545455000000\n";

#[test]
fn each_plan_is_made(rt: HostRuntime) {
    for row in PLANS {
        assert!(rt; is_planned(&rt, rt.alloc(), *row));
    }
}

fn is_planned<R: Threads + Wait + Abort + Sync>(rt: &R, alloc: Global, row: Planned) -> bool {
    let (_, _, _, status, lines) = row;
    let mut solution = Out::new(Vec::new(alloc));
    let mut report = Out::new(Vec::new(alloc));
    let mut history = Some(Stream {
        sink: Out::new(Vec::new(alloc)),
    });
    let answer = planned(rt, alloc, row, &mut solution, &mut report, &mut history);
    let is_solution = is_written(solution, b"0 0\n1 0\n3 1\n");
    let is_report = is_written(report, lines);
    let is_history = is_written(history.expect(rt, "a device").sink, HISTORY);
    answer == Ok(status) && is_solution && is_report && is_history
}

fn planned<R: Threads + Wait + Abort + Sync>(
    rt: &R,
    alloc: Global,
    row: Planned,
    solution: &mut Out<Vec<u8>>,
    report: &mut Out<Vec<u8>>,
    history: &mut Option<Stream<Out<Vec<u8>>>>,
) -> Result<Status, CliFault> {
    let (begins, is_in_turn, script, _, _) = row;
    let input = input_of(rt, alloc, begins, script);
    let options = PlanOptions {
        retries: 3,
        is_in_turn,
        is_strict: true,
        keys: Keys::default(),
    };
    plan(rt, alloc, alloc, input, options, solution, report, history)
}

fn input_of(rt: &impl Abort, alloc: Global, begins: Begins, script: &[u8]) -> PlanInput<Global> {
    let model = bytes_of(rt, alloc, MODEL);
    let precedence = bytes_of(rt, alloc, PRECEDENCE);
    let blocks = Some(bytes_of(rt, alloc, BLOCKS));
    let beginning = beginning_of(rt, alloc, begins);
    let scripts = scripts_of(rt, alloc, script);
    PlanInput::new(model, precedence, blocks, beginning, scripts)
}

fn beginning_of(rt: &impl Abort, alloc: Global, begins: Begins) -> Beginning<Global> {
    match begins {
        Begins::Nothing => Beginning::nothing(),
        Begins::NoHistory => Beginning::no_history(),
        Begins::Schedule => Beginning::schedule(bytes_of(rt, alloc, HISTORY)),
        Begins::History => Beginning::history(bytes_of(rt, alloc, HISTORY)),
    }
}

fn scripts_of(rt: &impl Abort, alloc: Global, script: &[u8]) -> Vec<Vec<u8>> {
    let mut scripts = Vec::new(alloc);
    scripts
        .push(bytes_of(rt, alloc, script))
        .expect(rt, "memory");
    scripts
}

fn bytes_of(rt: &impl Abort, alloc: Global, text: &[u8]) -> Vec<u8> {
    match read_all(alloc, &mut In::new(text)) {
        Ok(bytes) => bytes,
        Err(ReadError::Read) => panic!(rt; "not read"),
        Err(ReadError::TooLong) => panic!(rt; "too long"),
        Err(ReadError::NoMemory) => panic!(rt; "no memory"),
    }
}

/// Blocks 0 and 1 earn -10 + 20.5. The third job finds no room, and at least 1 is wanted in period 1.
const STOPPED: &[u8] = b"planner 1 job 1 committed 1 tries 1
planner 1 job 2 refused over 0 0 5.000000 4.000000 tries 1
planner 1 stopped at job 3: full\nvalue 10.500000000000000000\nshort 0 1 0.000000 1.000000\n";

#[test]
fn a_report_is_written(rt: HostRuntime) {
    let report = in_turn(&rt, rt.alloc(), &Open);
    let mut out = Out::new(Vec::new(rt.alloc()));
    let answer = write_report(rt.alloc(), &mut out, &report);
    drop(report);
    let is_text = is_written(out, STOPPED);
    assert!(rt; answer == Ok(()) && is_text);
}

/// Edits of a pit in which nothing is mined yet. Behind the first, block 3 is too much for period 0.
const EDITS: [&[u8]; 2] = [b"0 0\n1 0\n", b"0 0\n3 0\n"];

/// What is left is the first edit, `OLD`, which earns -10 + 20.5.
const MERGE_REPORT: &[u8] = b"edit 1 entry 1 changes 2 left 0 cause - committed 1
edit 2 entry 2 changes 1 left 0 cause - refused over 0 0 5.000000 4.000000
value 10.500000000000000000\nshort 0 1 0.000000 1.000000\n";

const MERGED: &[u8] = b"{\"format\":1}
{\"act\":\"commit\",\"job\":1,\"planner\":1,\"reads\":[[0,null],[1,null]],\"reply\":{\"committed\":1},\"start\":0,\"writes\":[[0,0],[1,0]]}
{\"act\":\"commit\",\"job\":1,\"planner\":2,\"reads\":[[3,null]],\"reply\":{\"over\":[0,0,\"5000000\",\"4000000\"]},\"start\":0,\"writes\":[[3,0]]}
";

#[test]
fn edits_are_merged(rt: HostRuntime) {
    let mut solution = Out::new(Vec::new(rt.alloc()));
    let mut report = Out::new(Vec::new(rt.alloc()));
    let mut history = Some(Stream {
        sink: Out::new(Vec::new(rt.alloc())),
    });
    let answer = merged(rt.alloc(), &mut solution, &mut report, &mut history);
    let is_solution = is_written(solution, OLD);
    let is_report = is_written(report, MERGE_REPORT);
    let is_history = is_written(history.expect(&rt, "a device").sink, MERGED);
    assert!(rt; answer == Ok(Status::Failed));
    assert!(rt; is_solution && is_report && is_history);
}

fn merged(
    alloc: Global,
    solution: &mut Out<Vec<u8>>,
    report: &mut Out<Vec<u8>>,
    history: &mut Option<Stream<Out<Vec<u8>>>>,
) -> Result<Status, CliFault> {
    let mut model = In::new(MODEL);
    let mut order = In::new(PRECEDENCE);
    let mut start: Option<In<&[u8]>> = None;
    let input = MergeInput::read(alloc, alloc, &mut model, &mut order, &mut start, false)?;
    let mut edits = [In::new(EDITS[0]), In::new(EDITS[1])];
    let options = MergeOptions {
        from: None,
        is_partial: false,
        keys: Keys::default(),
    };
    merge(
        alloc, alloc, input, &mut edits, options, solution, report, history,
    )
}

/// Faults, each with the status that the program ends with.
const FAULTS: &[(CliFault, u8)] = &[
    (CliFault::TooLong(Input::Precedence), 2),
    (CliFault::FewCommits { commits: 1 }, 2),
    (
        CliFault::FewBaseCommits {
            file: Input::Edit(1),
            commits: 1,
        },
        2,
    ),
    (CliFault::AnotherHistory(Input::Edit(1)), 2),
    (CliFault::RevisedLimit(Input::Edit(1)), 2),
    (CliFault::BaseMissing(Input::Edit(1)), 2),
    (CliFault::Start(BreachLine(BEHIND)), 2),
    (CliFault::PlannerCount, 2),
    (CliFault::CannotRead(Input::Solution), 3),
    (CliFault::CannotWrite, 3),
    (CliFault::HistoryInUse, 3),
    (CliFault::HistoryIsInput, 2),
    (CliFault::NoMemory, 3),
    (CliFault::NoPlace, 3),
    (CliFault::NotClosed, 3),
    (CliFault::Stopped, 3),
];

#[test]
fn each_fault_has_its_status(rt: HostRuntime) {
    for (fault, status) in FAULTS {
        assert!(rt; fault.status() == *status);
    }
    let (file, line, number, place, resource, period) = (Input::History, 1, 1, 1, 0, 0);
    assert!(rt; CliFault::Illegal { file, place }.status() == 2);
    assert!(rt; CliFault::LimitBelowZero { resource, period }.status() == 2);
    let error = LinesError { line, cause: Shape };
    assert!(rt; CliFault::Lines { file, error }.status() == 2);
    let error = ScriptError { line, cause: Order };
    assert!(rt; CliFault::Script { number, error }.status() == 2);
}
