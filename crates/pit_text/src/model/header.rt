ghost use Rattle.std.specs.Prelude.{◌≡◌, Result};
ghost use Rattle.pit_text.specs.Header.{value_of_key, number_in_range, supported_number, is_cpit, kind_of, rate_of};

use super::key::Key;
use crate::error::Fault;
use crate::number::{decimal, is_ascii, whole};
use pit_model::{BLOCKS_MAX, RESOURCES_MAX};
use pit_num::{PERIODS_MAX, RATE_MAX};

/// The number that a value gives a key.
#[tactic(auto, unfolding(crate::specs::Header::value_of_key))]
pub(crate) fn value_of_key(key: Key, value: &[u8]) -> Result<u32, Fault>
    ensures { result ≡ value_of_key key value.now }
{
    match key {
        Key::Kind => kind(value),
        Key::Blocks => number_in_range(1, BLOCKS_MAX, key, whole(value)),
        Key::Periods => number_in_range(1, PERIODS_MAX, key, whole(value)),
        Key::Resources => number_in_range(0, RESOURCES_MAX, key, whole(value)),
        Key::Rate => rate(decimal(value)),
        Key::Destinations => supported_number(1, key, whole(value)),
        Key::Generals => supported_number(0, key, whole(value)),
    }
}

fn number_in_range(low: u32, high: u32, key: Key, number: Result<u32, Fault>) -> Result<u32, Fault>
    ensures { result ≡ number_in_range low high key number }
{
    match number {
        Ok(n) if low <= n && n <= high => Ok(n),
        _ => Err(Fault::BadHeader(key)),
    }
}

fn supported_number(wanted: u32, key: Key, number: Result<u32, Fault>) -> Result<u32, Fault>
    ensures { result ≡ supported_number wanted key number }
{
    match number {
        Ok(n) if n == wanted => Ok(n),
        Ok(_) => Err(Fault::Unsupported(key)),
        Err(_) => Err(Fault::BadHeader(key)),
    }
}

fn kind(value: &[u8]) -> Result<u32, Fault>
    ensures { result ≡ kind_of value.now }
{
    if !is_ascii(value) {
        return Err(Fault::BadHeader(Key::Kind));
    }
    if !is_cpit(value) {
        return Err(Fault::NotCpit);
    }
    Ok(0)
}

fn is_cpit(value: &[u8]) -> bool
    ensures { result ≡ is_cpit value.now }
{
    value.eq_ignore_ascii_case(b"CPIT")
}

fn rate(number: Result<i64, Fault>) -> Result<u32, Fault>
    ensures { result ≡ rate_of number }
{
    match number {
        Ok(n) if 0 <= n && n <= i64::from(RATE_MAX) => Ok(n as u32),
        _ => Err(Fault::BadHeader(Key::Rate)),
    }
}
