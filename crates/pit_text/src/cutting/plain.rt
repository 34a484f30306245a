ghost use Rattle.std.specs.Prelude.{◌<◌, List, ℕ, IfOk, IfSome};
ghost use Rattle.pit_text.specs.Inside.Plain.{IsLineThen, IsListThen, SaysPreds, ArePair};

use pit_num::{NoMemory, whole_before};
use std::alloc::Allocator;

/// The numbers of a plain line of two fields that a text begins with, and what follows the line.
pub(crate) fn pair_line(text: &[u8]) -> Option<(u32, u32, &[u8])>
    ensures { IfSome result (λ read. (fields : List (List ℕ)) × IsLineThen text.now fields read.2.now × ArePair fields read.0 read.1) }
{
    let (first, behind) = whole_before(text, b' ')?;
    let (second, rest) = whole_before(behind, b'\n')?;
    Some((first, second, rest))
}

/// The first number of a plain line that a text begins with, whose second number is that of those behind it, and what follows the line. The numbers
/// behind it are left in the list.
pub(crate) fn counted_line<'a, B: Allocator + Drop>(
    text: &'a [u8],
    listed: &mut Vec<u32, B>,
) -> Result<Option<(u32, &'a [u8])>, NoMemory>
    ensures { IfOk result (λ found. IfSome found (λ read. SaysPreds text.now read.0 listed.new.items read.1.now)) }
{
    listed.clear();
    let Some((first, behind)) = whole_before(text, b' ') else {
        return Ok(None);
    };
    if let Some((0, rest)) = whole_before(behind, b'\n') {
        return Ok(Some((first, rest)));
    }
    let Some((count, behind)) = whole_before(behind, b' ') else {
        return Ok(None);
    };
    if count == 0 {
        return Ok(None);
    }
    match listed_line(behind, count, listed)? {
        Some(rest) => Ok(Some((first, rest))),
        None => Ok(None),
    }
}

/// Reads so many numbers, with which a plain line ends, into the list. Answers what follows the line.
fn listed_line<'a, B: Allocator + Drop>(
    text: &'a [u8],
    count: u32,
    listed: &mut Vec<u32, B>,
) -> Result<Option<&'a [u8]>, NoMemory>
    requires { 0 < count }
    ensures { IfOk result (λ found. IfSome found (λ rest. IsListThen text.now count listed.new.items rest.now)) }
{
    listed.clear();
    let mut rest = text;
    let mut left = count;
    while left > 1 {
        let Some((n, behind)) = whole_before(rest, b' ') else {
            return Ok(None);
        };
        listed.push(n)?;
        rest = behind;
        left -= 1;
    }
    let Some((n, behind)) = whole_before(rest, b'\n') else {
        return Ok(None);
    };
    listed.push(n)?;
    Ok(Some(behind))
}
