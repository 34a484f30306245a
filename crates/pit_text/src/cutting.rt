//! How a text is cut into its lines that are read, and a line into fields.
mod cut;
mod feed;
mod fields;
mod gaps;
mod lines;
mod plain;

pub use cut::{is_last, is_read, without_return};
pub use fields::Fields;
pub use lines::{Line, Lines};
