ghost use Rattle.std.specs.Prelude.{◌≡◌, ◌+◌, ◌≤◌, length, [], IsTrue, IsSome, IfSome, IfNone, ◌↔◌};
ghost use Rattle.std.specs.List.{before_first, after_first, list_any, position};
ghost use Rattle.pit_num.specs.Decimal.{is_negative, after_sign, is_point, is_e};
ghost use Rattle.pit_num.specs.Inside.Decimal.{after_front_point, with_minus};

/// Whether a minus sign stands in front, and what follows the sign.
#[inline]
pub fn split_sign(text: &[u8]) -> (bool, &[u8])
    ensures sign { result.0 ≡ is_negative text.now }
    ensures rest { result.1.now ≡ after_sign text.now }
{
    match text {
        [b'-', rest @ ..] => (true, rest),
        [b'+', rest @ ..] => (false, rest),
        _ => (false, text),
    }
}

/// Whether a minus sign stands in front, and what follows it. A plus sign is none here.
#[inline]
pub fn split_minus(text: &[u8]) -> (bool, &[u8])
    ensures { text.now ≡ with_minus result.0 result.1.now }
{
    match text {
        [b'-', rest @ ..] => (true, rest),
        _ => (false, text),
    }
}

/// What follows a point that stands in front; where none does, the text.
#[inline]
pub fn after_front_point(text: &[u8]) -> &[u8]
    ensures { result.now ≡ after_front_point text.now }
{
    match text {
        [b'.', rest @ ..] => rest,
        _ => text,
    }
}

/// What stands before the first `e`, and behind it where there is one.
#[tactic(auto, using(crate::proofs::Cuts::cuts))]
pub fn split_exponent(text: &[u8]) -> (&[u8], Option<&[u8]>)
    ensures front { result.0.now ≡ before_first is_e text.now }
    ensures some { IsSome result.1 ↔ IsTrue (list_any is_e text.now) }
    ensures back { IfSome result.1 (λ tail. tail.now ≡ after_first is_e text.now) }
    ensures none { IfNone result.1 (after_first is_e text.now ≡ []) }
{
    match exponent_place(text) {
        Some(at) => (&text[..at], Some(&text[at + 1..])),
        None => (text, None),
    }
}

/// What stands before and behind the first point; behind it nothing where there is none.
#[tactic(auto, using(crate::proofs::Cuts::cuts))]
pub fn split_point(text: &[u8]) -> (&[u8], &[u8])
    ensures front { result.0.now ≡ before_first is_point text.now }
    ensures back { result.1.now ≡ after_first is_point text.now }
    ensures fit { length result.0.now + length result.1.now ≤ length text.now }
{
    match point_place(text) {
        Some(at) => (&text[..at], &text[at + 1..]),
        None => (text, &[]),
    }
}

fn exponent_place(text: &[u8]) -> Option<usize>
    ensures { result ≡ position is_e text.now }
{
    text.iter().position(|b| *b == b'E' || *b == b'e')
}

fn point_place(text: &[u8]) -> Option<usize>
    ensures { result ≡ position is_point text.now }
{
    text.iter().position(|b| *b == b'.')
}
