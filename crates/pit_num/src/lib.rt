//! Numbers and devices, the lowest layer.
//!
//! A text of bytes stands for a whole number or for a decimal in millionths, or has its first fault. A discount
//! factor is the rounded quotient of the one before it. A printed value is its exact text, given to a device; a
//! device is known by the bytes that it holds or has left, and by whether it has failed.
#![tactic(auto)]

mod bits;
mod device;
mod discount;
mod limits;
mod memory;
mod parse;
mod print;
mod rounding;
mod sink;
mod source;

pub use bits::{has_bit, with_bit};
pub use device::Failed;
pub use discount::{Discount, factor_is_greatest};
pub use limits::{MICRO_LIMIT, PERIODS_MAX, RATE_MAX, number_limits};
pub use memory::NoMemory;
pub use parse::{
    DIGITS_MAX, EXPONENT_DIGITS_MAX, NumError, micro_before, micro_from_bytes, parse_micro,
    parse_whole, whole_before, whole_from_bytes,
};
pub use print::{WriteFault, write_micro, write_text, write_value, write_whole};
pub use rounding::nearest_is_greatest;
pub use sink::{Out, Sink};
pub use source::{In, Source};
