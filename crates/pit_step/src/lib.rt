//! What the engines of `pit` are made of: steps, from the bytes of the inputs to the bytes of the answer.
//!
//! An engine is a run of steps: it reads its inputs whole from devices, in order, and parses them. What it writes is the text of what its inputs
//! stand for, or nothing where an input has a fault or memory runs out; the fault is the first one. `bytes_of` reads an input, and `builder_of`,
//! `ordered`, `placed`, `built`, `schedule_of` and `history_of` parse one each; `read_pit` and `read_ordered_pit` do both, and `write_answer` writes.
//! A fault is a `CliFault`, with a variant for each line that the program prints.
#![tactic(auto)]

mod answer;
mod breach_line;
mod fault;
mod fields;
mod input;
mod lines;
mod parsed;
mod plans;
mod read;
mod refusal_words;
mod status;
mod text;
mod value_text;

pub use answer::write_answer;
pub use breach_line::BreachLine;
pub use fault::CliFault;
pub use fields::{write_amount, write_field, write_limit, write_period, write_worth};
pub use input::Input;
pub use lines::{write_breach, write_breach_words, write_shorts};
pub use parsed::{
    builder_of, built, bytes_of, deposited, history_of, ordered, placed, read_builder,
    read_history, read_order, read_ordered_deposit, read_ordered_pit, read_pit, read_placed_pit,
    read_places, read_schedule, schedule_of,
};
pub use plans::plan_of;
pub use read::{INPUT_BYTES_MAX, ReadError, input_limit, read_all};
pub use refusal_words::{write_numbered, write_refusal, write_reply};
pub use status::Status;
pub use text::{Text, empty_text, gathered};
pub use value_text::{write_line, write_value_lines};
