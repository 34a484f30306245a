//! The words for the streams of planners.
ghost use Rattle.std.specs.Prelude.{◌≡◌, true, false, MatchOption};
ghost use Rattle.std.specs.List.{list_all};
ghost use Rattle.pit_command.specs.Pairs.{has_pair, input_of, output_of};

/// The paths of a planner's streams: what stands before a word's first colon, and what stands behind it. None where one of them is empty.
pub fn stream_paths(word: &str) -> Option<(&str, &str)>
    ensures { MatchOption result (has_pair word.now ≡ false) (λ paths. (has_pair word.now ≡ true) × (paths.0.now ≡ input_of word.now) × (paths.1.now ≡ output_of word.now)) }
{
    let (input, output) = word.split_once(':')?;
    if input.is_empty() || output.is_empty() {
        return None;
    }
    Some((input, output))
}

fn is_pair(word: &str) -> bool
    ensures { result ≡ has_pair word.now }
{
    stream_paths(word).is_some()
}

/// Whether each word is a pair.
pub(crate) fn are_pairs(words: &[&str]) -> bool
    ensures { result ≡ list_all (λ word. has_pair word.now) words.now }
{
    words.iter().all(|word| is_pair(word))
}
