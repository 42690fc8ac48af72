// Durations as texts: decimal digits, if need be with a point and more digits behind it, and `s`.
ghost use Rattle.std.specs.Prelude.{◌≡◌, ◌<◌, ◌^◌, true, Some, IfSome};
ghost use Rattle.std.specs.Str.Parse.{digits_value};
ghost use Rattle.ps_fields.specs.Durations as spec;

/// The most digits of the seconds, and of what stands behind the point.
const MOST_DIGITS: usize = 12;

const MOST_DIGITS_BEHIND: usize = 9;

/// The milliseconds of a duration. None if the text is none, or if it isn't whole milliseconds.
pub fn milliseconds(text: &str) -> Option<u64>
    ensures { result ≡ spec.milliseconds text.now }
{
    let (number, rest) = text.split_once('s')?;
    if !rest.is_empty() {
        return None;
    }
    in_number(number)
}

/// The milliseconds of a number of seconds, with or without a point.
fn in_number(number: &str) -> Option<u64>
    ensures { result ≡ spec.in_number number.now }
{
    match number.split_once('.') {
        None => thousands(number),
        Some((whole, part)) => sum(thousands(whole), thousandths(part)),
    }
}

fn sum(whole: Option<u64>, part: Option<u64>) -> Option<u64>
    requires whole { IfSome whole (λ ms. ms < 10 ^ 15) }
    requires part { IfSome part (λ ms. ms < 1000) }
    ensures { result ≡ spec.sum whole part }
{
    Some(whole? + part?)
}

/// The milliseconds of this many seconds.
fn thousands(digits: &str) -> Option<u64>
    ensures value { result ≡ spec.thousands digits.now }
    ensures bound { IfSome result (λ ms. ms < 10 ^ 15) }
{
    if !is_number(MOST_DIGITS, digits) {
        return None;
    }
    Some(1_000 * number(digits)?)
}

/// The number that these digits write.
fn number(digits: &str) -> Option<u64>
    requires { spec.is_number 12 digits.now ≡ true }
    ensures value { result ≡ Some (digits_value 10 digits.now) }
    ensures bound { digits_value 10 digits.now < 10 ^ 12 }
{
    digits.parse().ok()
}

/// The milliseconds of the digits behind the point.
fn thousandths(digits: &str) -> Option<u64>
    ensures value { result ≡ spec.thousandths digits.now }
    ensures bound { IfSome result (λ ms. ms < 1000) }
{
    let bytes = digits.as_bytes();
    if !is_number(MOST_DIGITS_BEHIND, digits) || !is_whole(bytes) {
        return None;
    }
    Some(100 * digit(bytes, 0) + 10 * digit(bytes, 1) + digit(bytes, 2))
}

/// Whether the digits past the third one are all 0.
fn is_whole(digits: &[u8]) -> bool
    ensures { result ≡ spec.is_whole digits.now }
{
    digits.iter().skip(3).all(|digit| *digit == b'0')
}

/// The digit at this place, or 0 if there is none.
fn digit(digits: &[u8], place: usize) -> u64
    ensures value { result ≡ spec.digit place digits.now }
    ensures bound { result < 10 }
{
    match digits.get(place) {
        Some(digit) => u64::from(digit.saturating_sub(b'0')).min(9),
        None => 0,
    }
}

/// Whether the text has between 1 and this many bytes, all decimal digits.
fn is_number(most: usize, text: &str) -> bool
    ensures { result ≡ spec.is_number most text.now }
{
    !text.is_empty() && text.len() <= most && are_digits(text)
}

fn are_digits(text: &str) -> bool
    ensures { result ≡ spec.are_digits text.now }
{
    text.as_bytes().iter().all(|digit| digit.is_ascii_digit())
}
