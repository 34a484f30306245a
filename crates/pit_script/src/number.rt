ghost use Rattle.std.specs.Prelude.{◌≡◌, if◌then◌else◌};
ghost use Rattle.pit_num.specs.Decimal.{whole_of, micro_of, after_sign, is_negative};
ghost use Rattle.pit_text.specs.Bounds.{upper_bound_of};
ghost use Rattle.pit_text.specs.Numbers.{is_ascii};
ghost use Rattle.pit_script.specs.Numbers.{read_as, shift_of, is_dash, period_or_none_of};
ghost use Rattle.pit_script.specs.declared.error.ScriptFault.TheVariants.{BadNumber, NotAscii};

use super::error::ScriptFault;
use super::step::SHIFT_MAX;
use pit_num::{NumError, micro_from_bytes, whole_from_bytes};
use pit_text::{is_ascii, upper_bound};

/// Why a field that is no such number is refused. A number has no byte above 127, so only other fields are looked at again.
fn refusal(field: &[u8], error: NumError) -> ScriptFault
    ensures { result ≡ (if is_ascii field.now then BadNumber error else NotAscii) }
{
    if is_ascii(field) {
        ScriptFault::BadNumber(error)
    } else {
        ScriptFault::NotAscii
    }
}

/// The whole number in a field.
#[tactic(auto, using(crate::proofs::Numbers::reads))]
pub(crate) fn whole(field: &[u8]) -> Result<u32, ScriptFault>
    ensures { result ≡ read_as whole_of field.now }
{
    match whole_from_bytes(field) {
        Ok(n) => Ok(n),
        Err(error) => Err(refusal(field, error)),
    }
}

/// The decimal in a field, in millionths.
#[tactic(auto, using(crate::proofs::Numbers::reads))]
pub(crate) fn decimal(field: &[u8]) -> Result<i64, ScriptFault>
    ensures { result ≡ read_as micro_of field.now }
{
    match micro_from_bytes(field) {
        Ok(n) => Ok(n),
        Err(error) => Err(refusal(field, error)),
    }
}

/// The upper bound in a field, in millionths; none where it is infinite.
pub(crate) fn upper(field: &[u8]) -> Result<Option<i64>, ScriptFault>
    ensures { result ≡ read_as upper_bound_of field.now }
{
    if !is_ascii(field) {
        return Err(ScriptFault::NotAscii);
    }
    let Ok(text) = str::from_utf8(field) else {
        return Err(ScriptFault::NotAscii);
    };
    match upper_bound(text) {
        Ok(bound) => Ok(bound),
        Err(error) => Err(ScriptFault::BadNumber(error)),
    }
}

/// The period in a field, or none where it is a dash.
#[tactic(auto, using(crate::proofs::Numbers::reads))]
pub(crate) fn period_or_none(field: &[u8]) -> Result<Option<u32>, ScriptFault>
    ensures { result ≡ read_as period_or_none_of field.now }
{
    match period_or_none_of(field) {
        Ok(period) => Ok(period),
        Err(error) => Err(refusal(field, error)),
    }
}

#[tactic(auto, unfolding(crate::specs::Numbers::period_or_none_of))]
fn period_or_none_of(text: &[u8]) -> Result<Option<u32>, NumError>
    ensures { result ≡ period_or_none_of text.now }
{
    if is_dash(text) {
        return Ok(None);
    }
    let period = whole_from_bytes(text)?;
    Ok(Some(period))
}

fn is_dash(text: &[u8]) -> bool
    ensures { result ≡ is_dash text.now }
{
    match text {
        [byte] => *byte == b'-',
        _ => false,
    }
}

/// Whether the shift in a field goes back, and by how many periods.
#[tactic(auto, using(crate::proofs::Numbers::reads))]
pub(crate) fn shift(field: &[u8]) -> Result<(bool, u32), ScriptFault>
    ensures { result ≡ read_as shift_of field.now }
{
    match shift_of(field) {
        Ok(shift) => Ok(shift),
        Err(error) => Err(refusal(field, error)),
    }
}

#[tactic(auto, unfolding(crate::specs::Numbers::shift_of))]
fn shift_of(text: &[u8]) -> Result<(bool, u32), NumError>
    ensures { result ≡ shift_of text.now }
{
    let by = whole_from_bytes(after_sign(text))?;
    if by > SHIFT_MAX {
        return Err(NumError::TooLarge);
    }
    Ok((is_negative(text), by))
}

fn after_sign(text: &[u8]) -> &[u8]
    ensures { result.now ≡ after_sign text.now }
{
    match text {
        [b'+' | b'-', rest @ ..] => rest,
        _ => text,
    }
}

fn is_negative(text: &[u8]) -> bool
    ensures { result ≡ is_negative text.now }
{
    match text {
        [first, ..] => *first == b'-',
        [] => false,
    }
}
