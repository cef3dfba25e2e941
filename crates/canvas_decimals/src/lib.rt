//! Numbers as decimal digits, and back.
#![tactic(auto)]

ghost use Rattle.std.specs.Prelude.{◌≡◌, ◌≢◌, ◌+◌, ◌%◌, ◌^◌, ◌<◌, ◌≤◌, ℕ, IfSome, IfNone};
ghost use Rattle.std.specs.List.{list_all};
ghost use Rattle.std.specs.Char.{is_ascii_digit};
ghost use Rattle.canvas_decimals.specs.Decimals.{are_digits, read_on, ten_digits, whole_of};

// The last decimal digit of a number.
fn last_digit(number: u64) -> u8
    ensures { result ≡ 48 + number % 10 }
{
    b'0' + (number % 10) as u8
}

/// The last ten decimal digits of a number, the highest first.
pub fn ten_digits(number: u64) -> [u8; 10]
    ensures { result ≡ ten_digits number }
{
    let n9 = number;
    let n8 = n9 / 10;
    let n7 = n8 / 10;
    let n6 = n7 / 10;
    let n5 = n6 / 10;
    let n4 = n5 / 10;
    let n3 = n4 / 10;
    let n2 = n3 / 10;
    let n1 = n2 / 10;
    let n0 = n1 / 10;
    [
        last_digit(n0),
        last_digit(n1),
        last_digit(n2),
        last_digit(n3),
        last_digit(n4),
        last_digit(n5),
        last_digit(n6),
        last_digit(n7),
        last_digit(n8),
        last_digit(n9),
    ]
}

/// The number whose ten digits these bytes are, if they are ten digits.
pub fn read_ten_digits(text: &[u8]) -> Option<u64>
    ensures some { IfSome result (λ number. text.now ≡ ten_digits number) }
    ensures small { IfSome result (λ number. number < 10 ^ 10) }
    ensures none { IfNone result ((number : ℕ) → number < 10 ^ 10 → text.now ≢ ten_digits number) }
{
    let number = value_of(text)?;
    if number > 9999999999 {
        return None;
    }
    if ten_digits(number).as_slice() == text {
        Some(number)
    } else {
        None
    }
}

/// The number that these bytes stand for as digits, if it is below 2 ^ 63. A byte below `0` counts as `0`: see first that they are
/// digits, or afterwards that these are the number's.
pub fn value_of(text: &[u8]) -> Option<u64>
    ensures some { IfSome result (λ number. number ≡ read_on 0 text.now) }
    ensures small { IfSome result (λ number. number < 2 ^ 63) }
    ensures none { IfNone result (2 ^ 63 ≤ read_on 0 text.now) }
{
    let mut number: u64 = 0;
    for b in text {
        if number > 922337203685477580 {
            return None;
        }
        number = number * 10 + u64::from(b.saturating_sub(48));
    }
    if number > 9223372036854775807 {
        return None;
    }
    Some(number)
}

/// The whole number that this text writes in decimal digits, if it is below 2 ^ 63. Zeros may stand before it.
pub fn whole_of(text: &[u8]) -> Option<u64>
    ensures { result ≡ whole_of text.now }
{
    if are_digits(text) {
        value_of(text)
    } else {
        None
    }
}

// Checks whether there are bytes, and each is a digit.
fn are_digits(text: &[u8]) -> bool
    ensures { result ≡ are_digits text.now }
{
    !text.is_empty() && all_digits(text)
}

// Checks whether each byte is a digit.
fn all_digits(text: &[u8]) -> bool
    ensures { result ≡ list_all is_ascii_digit text.now }
{
    text.iter().all(|b| b.is_ascii_digit())
}
