ghost use Rattle.std.specs.Prelude.{◌≡◌};
ghost use Rattle.pit_text.specs.Bounds.{is_infinite, is_negative_infinite, upper_bound_of, lower_bound_of, upper_field, lower_field};

use crate::error::Fault;
use crate::number::is_ascii;
use pit_num::{NumError, micro_from_bytes};

/// A bound in an upper place, in millionths: a decimal, or none where it is `inf` or `infinity`, with an optional `+` and in any ASCII case.
#[tactic(auto, unfolding(crate::specs::Bounds::upper_bound_of))]
pub fn upper_bound(text: &str) -> Result<Option<i64>, NumError>
    ensures { result ≡ upper_bound_of text.now }
{
    upper_from_bytes(text.as_bytes())
}

#[tactic(auto, unfolding(crate::specs::Bounds::upper_bound_of))]
fn upper_from_bytes(text: &[u8]) -> Result<Option<i64>, NumError>
    ensures { result ≡ upper_bound_of text.now }
{
    if is_infinite(text) {
        return Ok(None);
    }
    match micro_from_bytes(text) {
        Ok(bound) => Ok(Some(bound)),
        Err(error) => Err(error),
    }
}

#[tactic(auto, unfolding(crate::specs::Bounds::lower_bound_of))]
fn lower_from_bytes(text: &[u8]) -> Result<Option<i64>, NumError>
    ensures { result ≡ lower_bound_of text.now }
{
    if is_negative_infinite(text) {
        return Ok(None);
    }
    match micro_from_bytes(text) {
        Ok(bound) => Ok(Some(bound)),
        Err(error) => Err(error),
    }
}

/// The bound in a field in an upper place.
#[tactic(auto, unfolding(crate::specs::Bounds::upper_field))]
pub(crate) fn upper(field: &[u8]) -> Result<Option<i64>, Fault>
    ensures { result ≡ upper_field field.now }
{
    if !is_ascii(field) {
        return Err(Fault::NotAscii);
    }
    match upper_from_bytes(field) {
        Ok(bound) => Ok(bound),
        Err(error) => Err(Fault::BadNumber(error)),
    }
}

/// The bound in a field in a lower place.
#[tactic(auto, unfolding(crate::specs::Bounds::lower_field))]
pub(crate) fn lower(field: &[u8]) -> Result<Option<i64>, Fault>
    ensures { result ≡ lower_field field.now }
{
    if !is_ascii(field) {
        return Err(Fault::NotAscii);
    }
    match lower_from_bytes(field) {
        Ok(bound) => Ok(bound),
        Err(error) => Err(Fault::BadNumber(error)),
    }
}

fn is_infinite(text: &[u8]) -> bool
    ensures { result ≡ is_infinite text.now }
{
    text.eq_ignore_ascii_case(b"inf")
        || text.eq_ignore_ascii_case(b"+inf")
        || text.eq_ignore_ascii_case(b"infinity")
        || text.eq_ignore_ascii_case(b"+infinity")
}

fn is_negative_infinite(text: &[u8]) -> bool
    ensures { result ≡ is_negative_infinite text.now }
{
    text.eq_ignore_ascii_case(b"-inf") || text.eq_ignore_ascii_case(b"-infinity")
}
