//! `pit_num`: numbers, factors, and devices.
ghost use Rattle.std.specs.Prelude.{None, true};

use super::tiny::is_written;
use pit_num::{
    Discount, Failed, In, NoMemory, NumError, Out, Sink, Source, WriteFault, parse_micro,
    parse_whole, write_micro, write_value,
};

/// Texts, and what they stand for in millionths.
const DECIMALS: &[(&str, Result<i64, NumError>)] = &[
    ("-0.0000005", Ok(-1)),
    ("1e", Err(NumError::Malformed)),
    ("1e1000", Err(NumError::TooLong)),
    ("999999999999.9999995", Err(NumError::TooLarge)),
];

#[test]
fn texts_stand_for_numbers(rt: HostRuntime) {
    for (text, number) in DECIMALS {
        assert!(rt; parse_micro(text) == *number);
    }
    assert!(rt; parse_whole("4294967295") == Ok(4_294_967_295));
}

/// 10^18 / 1100000 is 909090909090.9...
#[test]
fn profits_are_discounted(rt: HostRuntime) {
    let discount = match Discount::new(rt.alloc(), 100_000, 2) {
        Ok(discount) => discount,
        Err(NoMemory) => panic!(rt; "no memory"),
    };
    let factor = discount.factor(1);
    drop(discount);
    assert!(rt; factor == 909_090_909_091);
}

/// A device of the caller's own, which has failed.
#[derive(Drop)]
pub(super) struct Shut;

impl Sink for Shut {
    ghost contents = { λ s. None };

    ghost has_failed = { λ s. true };

    fn give(&mut self, _text: &[u8]) -> Result<usize, Failed> {
        Err(Failed)
    }
}

impl Source for Shut {
    ghost remaining = { λ s. None };

    ghost has_failed = { λ s. true };

    fn take(&mut self, _buffer: &mut [u8]) -> Result<usize, Failed> {
        Err(Failed)
    }
}

#[test]
fn devices_give_and_take(rt: HostRuntime) {
    assert!(rt; Shut.give(b"x") == Err(Failed));
    assert!(rt; Shut.take(&mut [0u8; 2]) == Err(Failed));
    assert!(rt; write_value(&mut Shut, 0) == Err(WriteFault));
    let mut out = Out::new(Vec::new(rt.alloc()));
    let is_given = is_given(&mut out);
    let is_text = is_written(out, b"ab-0.0000000000000000014.000000");
    assert!(rt; is_given && is_text);
}

/// Whether a device is given two of three bytes, and two numbers.
fn is_given<W: Sink>(out: &mut W) -> bool {
    let mut input = In::new(b"abc".as_slice());
    let mut buffer = [0u8; 2];
    input.take(&mut buffer) == Ok(2)
        && out.give(&buffer) == Ok(2)
        && write_value(out, -1) == Ok(())
        && write_micro(out, 4_000_000) == Ok(())
}
