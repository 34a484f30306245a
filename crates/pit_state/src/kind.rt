//! Which text is a history, and which a solution.
ghost use Rattle.std.specs.Prelude.{◌≡◌, find};
ghost use Rattle.pit_state.specs.States.{is_history as history_by, is_ink};

/// Whether the first byte other than a space, a tab, a carriage return and a line feed is a `{`.
pub fn is_history(text: &[u8]) -> bool
    ensures { result ≡ history_by text.now }
{
    first_ink(text) == Some(b'{')
}

fn first_ink(text: &[u8]) -> Option<u8>
    ensures { result ≡ find is_ink text.now }
{
    text.iter().copied().find(|b| *b != b' ' && *b != b'\t' && *b != b'\r' && *b != b'\n')
}
