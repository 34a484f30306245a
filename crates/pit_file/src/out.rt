ghost use Rattle.std.specs.Prelude.{OnOk, OnErr};
ghost use Rattle.pit_file.specs.OutputState.{OutputState, HasKept, HasNotKept};

use super::history_file::HistoryFile;
use super::two_names::TwoNames;
use pit_num::{Failed, Sink, write_text};

/// An output of a history: a stream, to which a first part may be written; or a file, which stays as it was until the whole text is there.
pub trait HistoryOut {
    /// What is known of it.
    ghost state: { Self → OutputState };

    /// Writes the whole text of a history.
    fn keep(&mut self, text: &[u8]) -> Result<(), Failed>
        ensures ok { OnOk result (HasKept text.now (state self.old) (state self.new)) }
        ensures err { OnErr result (HasNotKept text.now (state self.old) (state self.new)) };
}

/// A device as the output of a history.
#[derive(Drop)]
pub struct Stream<S: Sink + Drop> {
    /// The device, which the text is given to at once.
    pub sink: S,
}

impl<S: Sink + Drop> HistoryOut for Stream<S> {
    ghost state = { λ stream. OutputState.stream (S.contents stream.sink) (S.has_failed stream.sink) };

    fn keep(&mut self, text: &[u8]) -> Result<(), Failed> {
        match write_text(&mut self.sink, text) {
            Ok(()) => Ok(()),
            Err(_) => Err(Failed),
        }
    }
}

/// A stream or a file.
#[derive(Drop)]
pub enum HistoryOutput<S: Sink + Drop, P: TwoNames + Drop> {
    /// A pipe, a terminal or another device: the text goes behind what it holds.
    Stream(Stream<S>),
    /// A file, which the text replaces whole or not at all.
    File(HistoryFile<P>),
}

impl<S: Sink + Drop, P: TwoNames + Drop> HistoryOut for HistoryOutput<S, P> {
    ghost use Rattle.pit_file.specs.Outputs.{output_state};

    ghost state = { output_state S.contents S.has_failed P.stood };

    fn keep(&mut self, text: &[u8]) -> Result<(), Failed> {
        match self {
            HistoryOutput::Stream(stream) => stream.keep(text),
            HistoryOutput::File(file) => file.keep(text),
        }
    }
}
