// The moment that a text of the kind timestamp writes.
ghost use Rattle.std.specs.Prelude.{◌≡◌, ◌≤◌, ◌+◌, ◌*◌, IfSome, IfNone, option_map, drop, length, unsigned_abs};
ghost use Rattle.std.specs.List.{list_any, position};
ghost use Rattle.jiff_core.specs.Calendar.{IsDate, days_from_civil};
ghost use Rattle.ps_fields.specs.Timestamps as spec;

use jiff_core::civil::Date;

/// The milliseconds since 1970 that a timestamp writes, and 0 for one before 1970. Digits of a second past the third are
/// rounded up. None if the text is no timestamp.
pub fn timestamp(text: &str) -> Option<u64>
    ensures { result ≡ spec.timestamp_of text.now }
{
    let (day, rest) = date_front(text.as_bytes())?;
    let (ms, rest) = clock_front(rest)?;
    let (fraction, rest) = fraction_front(rest)?;
    let minutes = offset_of(rest)?;
    Some(moment_at(day, ms + fraction, minutes))
}

/// The day at the front of a text, by its number from 1970 on, and what stands behind the date.
fn date_front(text: &[u8]) -> Option<(i32, &[u8])>
    ensures { option_map (λ front. (front.0, front.1.now)) result ≡ spec.date_front text.now }
{
    match text {
        [a, b, c, d, b'-', e, f, b'-', g, h, rest @ ..] => {
            let century = pair(*a, *b)?;
            let years = pair(*c, *d)?;
            let month = pair(*e, *f)?;
            let day = pair(*g, *h)?;
            let day = day_number(100 * century + years, month, day)?;
            Some((day, rest))
        }
        _ => None,
    }
}

/// The number of a day from 1970 on, if the calendar has it.
fn day_number(year: u16, month: u16, day: u16) -> Option<i32>
    requires year { year ≤ 9999 }
    requires month { month ≤ 99 }
    requires day { day ≤ 99 }
    ensures { result ≡ spec.day_number year month day }
{
    day_of_date(year as i16, month as i8, day as i8)
}

fn day_of_date(year: i16, month: i8, day: i8) -> Option<i32>
    ensures none { IfNone result (IsDate year month day → ⊥) }
    ensures date { IfSome result (λ _. IsDate year month day) }
    ensures number { IfSome result (λ n. n ≡ days_from_civil year (unsigned_abs month) (unsigned_abs day)) }
{
    match Date::new(year, month, day) {
        Ok(date) => Some(date.to_unix_epoch_day()),
        Err(_) => None,
    }
}

/// The milliseconds from midnight on, behind a `T`, and what stands behind the seconds.
fn clock_front(text: &[u8]) -> Option<(u32, &[u8])>
    ensures value { option_map (λ front. (front.0, front.1.now)) result ≡ spec.clock_front text.now }
    ensures small { IfSome result (λ front. front.0 ≤ 86_400_000) }
{
    match text {
        [b'T' | b't', a, b, b':', c, d, b':', e, f, rest @ ..] => {
            let hours = up_to(23, pair(*a, *b))?;
            let minutes = up_to(59, pair(*c, *d))?;
            let seconds = up_to(59, pair(*e, *f))?;
            Some((clock(hours, minutes, seconds), rest))
        }
        _ => None,
    }
}

fn clock(hours: u16, minutes: u16, seconds: u16) -> u32
    requires hours { hours ≤ 23 }
    requires minutes { minutes ≤ 59 }
    requires seconds { seconds ≤ 59 }
    ensures value { result ≡ 3600000 * hours + 60000 * minutes + 1000 * seconds }
    ensures small { result ≤ 86_400_000 }
{
    3_600_000 * hours as u32 + 60_000 * minutes as u32 + 1_000 * seconds as u32
}

/// The milliseconds of 1 to 9 digits behind a `.`, or none if no `.` comes, and what stands behind them.
fn fraction_front(text: &[u8]) -> Option<(u32, &[u8])>
    ensures value { option_map (λ front. (front.0, front.1.now)) result ≡ spec.fraction_front text.now }
    ensures small { IfSome result (λ front. front.0 ≤ 86_400_000) }
{
    match text {
        [b'.', behind @ ..] => {
            let (digits, rest) = digits_front(behind);
            if digits.is_empty() || 9 < digits.len() {
                return None;
            }
            Some((millis(digits), rest))
        }
        _ => Some((0, text)),
    }
}

/// The digits at the front of a text, and what stands behind them.
fn digits_front(text: &[u8]) -> (&[u8], &[u8])
    ensures { (result.0.now, result.1.now) ≡ spec.digits_front text.now }
{
    match digits_end(text) {
        Some(end) => text.split_at(end),
        None => (text, &[]),
    }
}

/// The place of the first byte that is no digit.
fn digits_end(text: &[u8]) -> Option<usize>
    ensures place { result ≡ position spec.is_no_digit text.now }
    ensures within { IfSome result (λ end. end ≤ length text.now) }
{
    text.iter().position(|b| !b.is_ascii_digit())
}

/// The first three digits as milliseconds, and one more if another digit isn't zero.
fn millis(digits: &[u8]) -> u32
    ensures value { result ≡ spec.millis digits.now }
    ensures small { result ≤ 86_400_000 }
{
    let ms = 100 * digit_at(digits, 0) + 10 * digit_at(digits, 1) + digit_at(digits, 2);
    if has_more(digits) { ms + 1 } else { ms }
}

fn digit_at(digits: &[u8], place: usize) -> u32
    ensures value { result ≡ spec.digit_at digits.now place }
    ensures small { result ≤ 255 }
{
    match digits.get(place) {
        Some(digit) => digit.saturating_sub(b'0') as u32,
        None => 0,
    }
}

/// Whether a digit past the third isn't zero.
fn has_more(digits: &[u8]) -> bool
    ensures { result ≡ list_any spec.is_nonzero (drop 3 digits.now) }
{
    match digits {
        [_, _, _, more @ ..] => has_nonzero(more),
        _ => false,
    }
}

fn has_nonzero(digits: &[u8]) -> bool
    ensures { result ≡ list_any spec.is_nonzero digits.now }
{
    digits.iter().any(|digit| *digit != b'0')
}

/// The minutes that a time of day is ahead of UTC.
fn offset_of(text: &[u8]) -> Option<i32>
    ensures { result ≡ spec.offset_of text.now }
{
    match text {
        [b'Z' | b'z'] => Some(0),
        [sign, a, b, b':', c, d] => {
            let hours = up_to(23, pair(*a, *b))?;
            let minutes = up_to(59, pair(*c, *d))?;
            signed(*sign, 60 * hours + minutes)
        }
        _ => None,
    }
}

fn signed(sign: u8, minutes: u16) -> Option<i32>
    ensures { result ≡ spec.signed sign minutes }
{
    match sign {
        b'+' => Some(minutes as i32),
        b'-' => Some(-(minutes as i32)),
        _ => None,
    }
}

/// What two decimal digits write.
fn pair(tens: u8, ones: u8) -> Option<u16>
    ensures value { result ≡ spec.pair tens ones }
    ensures small { IfSome result (λ n. n ≤ 99) }
{
    if tens.is_ascii_digit() && ones.is_ascii_digit() {
        Some(10 * (tens - b'0') as u16 + (ones - b'0') as u16)
    } else {
        None
    }
}

fn up_to(most: u16, number: Option<u16>) -> Option<u16>
    ensures value { result ≡ spec.up_to most number }
    ensures small { IfSome result (λ n. n ≤ most) }
{
    match number {
        Some(number) if number <= most => Some(number),
        _ => None,
    }
}

/// Milliseconds since 1970, and 0 before.
fn moment_at(day: i32, ms: u32, minutes: i32) -> u64
    ensures { result ≡ spec.moment_at day ms minutes }
{
    natural(total(day, ms, minutes))
}

fn total(day: i32, ms: u32, minutes: i32) -> i64
    ensures { result ≡ spec.total day ms minutes }
{
    86_400_000 * i64::from(day) + i64::from(ms) - 60_000 * i64::from(minutes)
}

fn natural(number: i64) -> u64
    ensures { result ≡ spec.natural number }
{
    u64::try_from(number).unwrap_or(0)
}
