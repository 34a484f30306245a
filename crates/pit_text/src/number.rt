ghost use Rattle.std.specs.Prelude.{◌≡◌, if◌then◌else◌};
ghost use Rattle.pit_text.specs.declared.error.Fault.TheVariants.{BadNumber, NotAscii};
ghost use Rattle.pit_text.specs.Numbers.{is_ascii, whole_field, decimal_field};

use super::error::Fault;
use pit_num::{NumError, micro_from_bytes, whole_from_bytes};

/// The whole number in a field.
#[tactic(auto, unfolding(crate::specs::Numbers::whole_field), using(crate::proofs::Ascii::reads))]
pub(crate) fn whole(field: &[u8]) -> Result<u32, Fault>
    ensures { result ≡ whole_field field.now }
{
    match whole_from_bytes(field) {
        Ok(n) => Ok(n),
        Err(error) => Err(refusal(field, error)),
    }
}

/// The decimal in a field, in millionths.
#[tactic(auto, unfolding(crate::specs::Numbers::decimal_field), using(crate::proofs::Ascii::reads))]
pub(crate) fn decimal(field: &[u8]) -> Result<i64, Fault>
    ensures { result ≡ decimal_field field.now }
{
    match micro_from_bytes(field) {
        Ok(n) => Ok(n),
        Err(error) => Err(refusal(field, error)),
    }
}

/// Why a field that is no number is refused. A number has no byte above 127, so only other fields are looked at again.
fn refusal(field: &[u8], error: NumError) -> Fault
    ensures { result ≡ (if is_ascii field.now then BadNumber error else NotAscii) }
{
    if is_ascii(field) {
        Fault::BadNumber(error)
    } else {
        Fault::NotAscii
    }
}

/// Whether each byte is below 128.
pub fn is_ascii(field: &[u8]) -> bool
    ensures { result ≡ is_ascii field.now }
{
    field.iter().all(|b| *b < 128)
}
