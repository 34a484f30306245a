use crate::lines::write_breach_words;
use pit_num::{Failed, Sink};
use pit_plan::Breach;
use std::fmt;

/// A breach, as the lines of it show it.
#[derive(Clone, Copy, Debug, PartialEq, Eq)]
pub struct BreachLine(pub Breach);

impl fmt::Display for BreachLine {
    ghost use Rattle.std.specs.Prelude.{None};

    ghost output = { λ _. None };

    fn fmt<W: fmt::Write>(&self, f: &mut fmt::Formatter<W>) -> fmt::Result {
        let mut shown = Shown {
            f,
            has_failed: false,
        };
        match write_breach_words(&mut shown, self.0) {
            Ok(()) => Ok(()),
            Err(_) => Err(fmt::Error),
        }
    }
}

/// A device whose bytes, all ASCII, go to a formatter. What that holds is not told.
#[derive(Drop)]
struct Shown<'a, W: fmt::Write> {
    f: &'a mut fmt::Formatter<W>,
    has_failed: bool,
}

impl<'a, W: fmt::Write> Sink for Shown<'a, W> {
    ghost use Rattle.std.specs.Prelude.{None};

    ghost contents = { λ _. None };

    ghost has_failed = { λ shown. shown.has_failed };

    fn give(&mut self, bytes: &[u8]) -> Result<usize, Failed> {
        if self.has_failed || show(self.f, bytes).is_err() {
            self.has_failed = true;
            return Err(Failed);
        }
        Ok(bytes.len())
    }
}

fn show<W: fmt::Write>(f: &mut fmt::Formatter<W>, bytes: &[u8]) -> fmt::Result {
    for byte in bytes {
        f.write_char(char::from(*byte))?;
    }
    Ok(())
}
