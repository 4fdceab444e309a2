// Numbers in decimal digits.
ghost use Rattle.std.specs.Prelude.{◌≡◌, ◌≤◌, true, length, IfSome, if◌then◌else◌, Some, None};
ghost use Rattle.std.specs.{Char.is_ascii_digit, List.list_all};
ghost use Rattle.tva_base.specs.Decimal.{decimal_of, plain_decimal_of, has_leading_zero, number_in};

/// The number that 1 to 20 ASCII digits write, leading zeros included. `None` exactly where the
/// text isn't of that form or its number is above `max`.
#[tactic(auto, unfolding(crate::specs::Decimal::decimal_of))]
pub fn decimal(text: &[u8], max: u64) -> Option<u64>
    ensures value { result ≡ decimal_of text.now max }
    ensures within { IfSome result (λ number. number ≤ max) }
{
    if text.is_empty() || text.len() > 20 {
        return None;
    }
    match number_of(text) {
        Some(number) if number <= u128::from(max) => Some(number as u64),
        _ => None,
    }
}

/// The same for a number without leading zeros.
#[tactic(auto, unfolding(crate::specs::Decimal::plain_decimal_of))]
pub(crate) fn plain_decimal(text: &[u8], max: u64) -> Option<u64>
    ensures value { result ≡ plain_decimal_of text.now max }
    ensures within { IfSome result (λ number. number ≤ max) }
{
    if has_leading_zero(text) {
        return None;
    }
    decimal(text, max)
}

// Whether a digit 0 stands before more digits.
fn has_leading_zero(text: &[u8]) -> bool
    ensures { result ≡ has_leading_zero text.now }
{
    match text {
        [first, _, ..] => *first == b'0',
        _ => false,
    }
}

// The number that at most 20 digits write, or nothing where another byte is among them.
fn number_of(text: &[u8]) -> Option<u128>
    requires { length text.now ≤ 20 }
    ensures { result ≡ (if list_all is_ascii_digit text.now then Some (number_in text.now) else None) }
{
    if !all_digits(text) {
        return None;
    }
    Some(sum_of_digits(text))
}

fn all_digits(text: &[u8]) -> bool
    ensures { result ≡ list_all is_ascii_digit text.now }
{
    text.iter().all(|byte| byte.is_ascii_digit())
}

// The number that at most 20 digits write.
#[tactic(auto, using(crate::proofs::Digits::number_in_push, crate::proofs::Digits::number_in_room))]
fn sum_of_digits(text: &[u8]) -> u128
    requires few { length text.now ≤ 20 }
    requires digits { list_all is_ascii_digit text.now ≡ true }
    ensures { result ≡ number_in text.now }
{
    let mut number = 0u128;
    for byte in text {
        number = number * 10 + u128::from(*byte - b'0');
    }
    number
}
