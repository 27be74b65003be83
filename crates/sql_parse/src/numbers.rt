//! Numbers by their digits.
ghost use Rattle.std.specs.Prelude.{◌≡◌, ◌<◌, ◌^◌, IfSome};
ghost use Rattle.sql_parse.specs.Numbers as spec;

/// The number of these digits, if it has 64 bits.
pub(crate) fn number_of(digits: &[u8]) -> Option<u64>
    ensures { result ≡ spec.number_of digits.now }
{
    let mut number = 0;
    for digit in digits {
        match with_digit(number, *digit) {
            None => return None,
            Some(longer) => number = longer,
        }
    }
    Some(number)
}

// The number with one digit more, if it has 64 bits.
fn with_digit(number: u64, digit: u8) -> Option<u64>
    ensures value { result ≡ spec.below (2 ^ 64) (spec.with_digit number digit) }
    ensures small { IfSome result (λ longer. longer < 2 ^ 64) }
{
    let longer = number as u128 * 10 + digit.saturating_sub(b'0') as u128;
    if longer <= u64::MAX as u128 {
        Some(longer as u64)
    } else {
        None
    }
}

/// The number as one with a sign, if it is one of 64 bits.
pub(crate) fn positive(number: u64) -> Option<i64>
    ensures { result ≡ spec.positive number }
{
    if number < 9223372036854775808 {
        Some(number as i64)
    } else {
        None
    }
}

/// The same with the other sign.
pub(crate) fn negative(number: u64) -> Option<i64>
    ensures { result ≡ spec.negative number }
{
    if number == 9223372036854775808 {
        return Some(i64::MIN);
    }
    match positive(number) {
        None => None,
        Some(number) => Some(-number),
    }
}
