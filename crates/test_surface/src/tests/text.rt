//! `pit_text`: texts that are cut, read and written.
use super::tiny::{BLOCKS, MODEL, is_written, tiny, tiny_builder};
use Cause::{BadHeader, BadNumber, Build, MissingHeader, Unsupported};
use Key::{Generals, Resources};
use pit_model::{BuildError, Instance};
use pit_num::{NumError, Out};
use pit_text::{
    Cause, Fields, Key, Line, Lines, TextError, read_blocks, read_model, read_precedence,
    read_solution, upper_bound, write_solution,
};
use std::alloc::Global;
use std::process::Abort;

#[test]
fn texts_are_cut(rt: HostRuntime) {
    assert!(rt; upper_bound("4") == Ok(Some(4_000_000)));
    let mut lines = Lines::new(b"% a\n b:c\r\nEOF\nd");
    let Some(Line { number, fields }) = lines.next() else {
        panic!(rt; "no line");
    };
    assert!(rt; number == 2);
    assert!(rt; has_fields(fields, b"b", b"c"));
    let None = lines.next() else {
        panic!(rt; "another line");
    };
    assert!(rt; lines.end_line() == 3);
}

fn has_fields(mut fields: Fields<'_>, first: &[u8], second: &[u8]) -> bool {
    fields.next() == Some(first) && fields.next() == Some(second) && fields.next().is_none()
}

#[test]
fn a_pit_and_its_solution_are_read(rt: HostRuntime) {
    let pit = tiny(&rt, rt.alloc());
    assert_read(&rt, rt.alloc(), &pit);
    let error = read_solution(rt.alloc(), b"3 0 1 0.5\n", &pit).err();
    drop(pit);
    assert!(rt; is_error(error, 1, Cause::PartBlock));
}

/// In the solution block 3 is given as MineLib gives it, and block 2 not at all.
fn assert_read(rt: &impl Abort, alloc: Global, pit: &Instance<Global>) {
    assert!(rt; pit.blocks() == 4);
    assert!(rt; (pit.profit(1), pit.preds(2)) == (20_500_000, [0, 1].as_slice()));
    assert!(rt; pit.place(3) == Some((1_000_000, 0, 2_000_000)));
    let answer = read_solution(alloc, b"3 0 1 1.000000\n1 0\n0 0\n2 0 1 0\n", pit);
    let solution = answer.expect(rt, "a solution");
    let is_read = solution.as_slice() == [(0, 0), (1, 0), (3, 1)].as_slice();
    drop(solution);
    assert!(rt; is_read);
}

#[test]
fn a_solution_is_written(rt: HostRuntime) {
    let mut out = Out::new(Vec::new(rt.alloc()));
    let answer = write_solution(&mut out, &[Some(0), Some(0), None, Some(1)]);
    let is_text = is_written(out, b"0 0\n1 0\n3 1\n");
    assert!(rt; answer == Ok(()) && is_text);
}

/// What is wrong with precedences of the small pit.
fn order_fault(rt: &impl Abort, alloc: Global, text: &[u8]) -> Option<TextError> {
    let builder = read_model(alloc, MODEL).expect(rt, "a model");
    read_precedence(alloc, text, builder).err()
}

/// A text, the line of its first fault, and what is wrong with it.
type Faulty = (&'static [u8], u64, Cause);

const MODELS: &[Faulty] = &[
    (b"", 1, MissingHeader(Key::Kind)),
    (b"TYPE: PCPSP\n", 1, Cause::NotCpit),
    (b"NBLOCKS: 0\n", 1, BadHeader(Key::Blocks)),
    (b"NPERIODS: 2 2\n", 1, BadHeader(Key::Periods)),
    (b"NRESOURCE_SIDE_CONSTRAINTS: x\n", 1, BadHeader(Resources)),
    (b"DISCOUNT_RATE: -1\n", 1, BadHeader(Key::Rate)),
    (b"NDESTINATIONS: 2\n", 1, Unsupported(Key::Destinations)),
    (b"NGENERAL_SIDE_CONSTRAINTS: 1\n", 1, Unsupported(Generals)),
    (TWO_SECTIONS, 7, Cause::SectionTwice),
    (NO_KIND, 7, Cause::BadKind),
];

const TWO_SECTIONS: &[u8] =
    b"TYPE: CPIT\nNBLOCKS: 1\nNPERIODS: 1\nNRESOURCE_SIDE_CONSTRAINTS: 1\nDISCOUNT_RATE: 0.1
OBJECTIVE_FUNCTION:\nOBJECTIVE_FUNCTION:\n";

const NO_KIND: &[u8] =
    b"TYPE: CPIT\nNBLOCKS: 1\nNPERIODS: 1\nNRESOURCE_SIDE_CONSTRAINTS: 1\nDISCOUNT_RATE: 0.1
RESOURCE_CONSTRAINT_LIMITS:\n0 0 X 4\n";

#[test]
fn a_model_may_have_a_fault(rt: HostRuntime) {
    for (text, line, cause) in MODELS {
        let error = read_model(rt.alloc(), text).err();
        assert!(rt; is_error(error, *line, *cause));
    }
}

fn is_error(error: Option<TextError>, line: u64, cause: Cause) -> bool {
    error == Some(TextError { line, cause })
}

const PRECEDENCES: &[Faulty] = &[
    (b"\xff 0\n", 1, Cause::NotAscii),
    (b"0\n", 1, Cause::FieldCount),
    (b"0 x\n", 1, BadNumber(NumError::Malformed)),
    (b"2 3 0 1\n", 1, Cause::CountWrong),
    (b"0 0\n0 0\n", 2, Build(BuildError::Repeated)),
];

#[test]
fn precedences_and_places_may_have_a_fault(rt: HostRuntime) {
    for (text, line, cause) in PRECEDENCES {
        let error = order_fault(&rt, rt.alloc(), text);
        assert!(rt; is_error(error, *line, *cause));
    }
    let error = read_blocks(BLOCKS, tiny_builder(&rt, rt.alloc())).err();
    assert!(rt; is_error(error, 1, Build(BuildError::Repeated)));
}
