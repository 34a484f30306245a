//! The numbers of a model, as a fault of a range needs them.
use crate::given::Given;
use crate::model::header_number;
use pit_step::Input;
use pit_text::Key;
use std::fmt;

/// Writes how the blocks, the periods or the resources are numbered, which one is past the last.
pub(crate) fn write_range<G: Given, W: fmt::Write>(w: &mut W, given: &G, key: Key) -> fmt::Result {
    let things = match key {
        Key::Periods => "Periods",
        Key::Resources => "Resources",
        _ => "Blocks",
    };
    match count_of(given, key) {
        Some(0) => write!(w, "The model has none of them: {key} is 0."),
        Some(count) => write!(
            w,
            "{things} are numbered from 0 to {}: the model has {key} {count}.",
            count.saturating_sub(1)
        ),
        None => write!(
            w,
            "{things} are numbered from 0, and the model's {key} says how many."
        ),
    }
}

fn count_of<G: Given>(given: &G, key: Key) -> Option<u32> {
    let model = given.read(Input::Model).ok()?;
    header_number(&model, key)
}
