//! Tables of texts.
ghost use Rattle.std.specs.Prelude.{◌≡◌, map};
ghost use Rattle.std.specs.Map.{lookup};
ghost use Rattle.std.specs.Str.{bytes_eq};

/// What a table says of a text, in the first row that has it.
pub fn look_up<T: Copy>(rows: &[(&str, T)], text: &[u8]) -> Option<T>
    ensures { result ≡ lookup (bytes_eq text.now) (map (λ row. (row.0.now, row.1)) rows.now) }
{
    let mut left = rows;
    while let [row, rest @ ..] = left {
        if text == row.0.as_bytes() {
            return Some(row.1);
        }
        left = rest;
    }
    None
}
