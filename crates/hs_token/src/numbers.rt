//! Reading the numbers that texts write in decimal.
ghost use Rattle.std.specs.Prelude.{◌≡◌, ◌+◌, ◌^◌, pos, neg_ℤ, option_map};
ghost use Rattle.hs_token.specs.Number.{number_below, u32_of, u64_of, i64_of};

/// The number below 2^32 that digits write. There is no sign, and zeros may lead.
pub fn parse_u32(text: &[u8]) -> Option<u32>
    ensures { result ≡ u32_of text.now }
{
    let number = number_up_to(u64::from(u32::MAX), text)?;
    Some(number as u32)
}

/// The same for a number below 2^64.
pub fn parse_u64(text: &[u8]) -> Option<u64>
    ensures { result ≡ u64_of text.now }
{
    number_up_to(u64::MAX, text)
}

/// The integer that digits write, behind a `+`, a `-` or no sign. Zeros may lead.
pub fn parse_i64(text: &[u8]) -> Option<i64>
    ensures { result ≡ i64_of text.now }
{
    match text {
        [b'-', digits @ ..] => negative(digits),
        [b'+', digits @ ..] => positive(digits),
        digits => positive(digits),
    }
}

fn positive(digits: &[u8]) -> Option<i64>
    ensures { result ≡ option_map pos (number_below (2 ^ 63) digits.now) }
{
    let number = number_up_to((1 << 63) - 1, digits)?;
    Some(number as i64)
}

fn negative(digits: &[u8]) -> Option<i64>
    ensures { result ≡ option_map (λ n. neg_ℤ (pos n)) (number_below (2 ^ 63 + 1) digits.now) }
{
    let number = number_up_to(1 << 63, digits)?;
    if number == 1 << 63 {
        return Some(i64::MIN);
    }
    Some(-(number as i64))
}

/// The number that digits write, where it is at most the greatest.
fn number_up_to(greatest: u64, digits: &[u8]) -> Option<u64>
    ensures { result ≡ number_below (greatest + 1) digits.now }
{
    if digits.is_empty() {
        return None;
    }
    let mut number: u64 = 0;
    for digit in digits {
        if !digit.is_ascii_digit() {
            return None;
        }
        number = number
            .checked_mul(10)?
            .checked_add(u64::from(*digit - b'0'))?;
        if number > greatest {
            return None;
        }
    }
    Some(number)
}
