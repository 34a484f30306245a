//! The streams of planners among the system's files.
ghost use Rattle.std.specs.Prelude.{◌≡◌, IfErr};

use pit_command::stream_paths;
use pit_file::{
    FileFault, FileIdentity, HostInput, HostNames, HostOutput, StreamFault, Streams,
    identity_behind, open_streams,
};
use std::io::BufReader;

/// The streams that the words name, or the standard streams, and what none of them may be written to.
#[derive(Drop)]
pub struct SystemStreams<'a> {
    rt: &'a HostRuntime,
    /// One for each planner, or none.
    words: Vec<String>,
    history_name: String,
    new_name: String,
    /// The model, its precedences, and the blocks' places, whose files are open.
    inputs: [Option<FileIdentity>; 3],
}

impl<'a> SystemStreams<'a> {
    /// The streams of these words, beside a history and inputs.
    pub fn new(
        rt: &'a HostRuntime,
        words: Option<&[&str]>,
        names: &HostNames<'_>,
        inputs: [Option<FileIdentity>; 3],
    ) -> Result<SystemStreams<'a>, FileFault>
        ensures { IfErr result (λ fault. fault ≡ FileFault.NoMemory) }
    {
        let (Some(words), Some(history_name), Some(new_name)) = (
            copies(rt, words),
            copy(rt, names.history_name()),
            copy(rt, names.new_name()),
        ) else {
            return Err(FileFault::NoMemory);
        };
        Ok(SystemStreams {
            rt,
            words,
            history_name,
            new_name,
            inputs,
        })
    }

    /// The paths of the streams of the planner of this number, from 1; none where they are the standard streams.
    fn paths(&self, planner: u64) -> Option<(&str, &str)> {
        let index = usize::try_from(planner).ok()?.checked_sub(1)?;
        let word = self.words.as_slice().get(index)?;
        stream_paths(word.as_str())
    }
}

impl Streams for SystemStreams<'_> {
    type Input = BufReader<HostInput>;

    type Output = HostOutput;

    fn open(&self, planner: u64) -> Result<(BufReader<HostInput>, HostOutput), StreamFault> {
        let Ok(history) = identity_behind(self.rt, self.history_name.as_str()) else {
            return Err(StreamFault::NoStream);
        };
        let Ok(new_file) = identity_behind(self.rt, self.new_name.as_str()) else {
            return Err(StreamFault::NoStream);
        };
        let [model, precedence, blocks] = self.inputs;
        let others = [history, new_file, model, precedence, blocks];
        open_streams(self.rt, self.paths(planner), &others)
    }
}

fn copy(rt: &HostRuntime, text: &str) -> Option<String> {
    String::from_str(rt.alloc(), text).ok()
}

fn copies(rt: &HostRuntime, words: Option<&[&str]>) -> Option<Vec<String>> {
    let mut copies = Vec::new(rt.alloc());
    if let Some(words) = words {
        for word in words {
            copies.push(copy(rt, word)?).ok()?;
        }
    }
    Some(copies)
}
