// Strict mode: the ranges of a date's and a time's parts, asked after the format test. Not in the
// Rust (document 01, 'The verdict on a value').
ghost use Rattle.std.specs.Prelude.{◌≡◌};
ghost use Rattle.strict_dates.specs.StrictDate.{is_in_range, is_strict_date, is_strict_month_year, is_strict_time_of_day, is_strict_utc_timestamp};

use ascii::digits::is_digits_of_len;

// Returns true where the first two bytes are digits and make a number from low to high. With this
// match in the function below, under its `get`, the proof did not close.
#[tactic(auto, using(crate::specs::StrictDateLaws::is_in_range_begins), unfolding(ascii::specs::Notation::is_between))]
fn begins_between(rest: &[u8], low: u8, high: u8) -> bool
    ensures { result ≡ is_in_range low high 0 rest.now }
{
    match rest {
        [tens @ b'0'..=b'9', ones @ b'0'..=b'9', ..] => {
            let number = (tens - b'0') * 10 + (ones - b'0');
            low <= number && number <= high
        }
        _ => false,
    }
}

// Returns true where two digits at the place make a number from low to high.
#[tactic(auto, using(crate::specs::StrictDateLaws::is_in_range_outside), unfolding(crate::specs::StrictDate::is_in_range))]
pub fn two_digits_between(value: &[u8], place: usize, low: u8, high: u8) -> bool
    ensures outcome { result ≡ is_in_range low high place value.now }
{
    match value.get(place..) {
        Some(rest) => begins_between(rest, low, high),
        None => false,
    }
}

// Month 01-12 and day 01-31.
pub fn is_strict_date(value: &[u8]) -> bool
    ensures outcome { result ≡ is_strict_date value.now }
{
    two_digits_between(value, 4, 1, 12) && two_digits_between(value, 6, 1, 31)
}

// A value of `YYYYMMDD` is asked as a date, one of `YYYYMM` or `YYYYMMww` for month 01-12.
pub fn is_strict_month_year(value: &[u8]) -> bool
    ensures outcome { result ≡ is_strict_month_year value.now }
{
    if is_digits_of_len(value, 8) {
        is_strict_date(value)
    } else {
        two_digits_between(value, 4, 1, 12)
    }
}

// Hour 00-23, minute 00-59, second 00-60.
pub fn is_strict_time_of_day(value: &[u8]) -> bool
    ensures outcome { result ≡ is_strict_time_of_day value.now }
{
    two_digits_between(value, 0, 0, 23)
        && two_digits_between(value, 3, 0, 59)
        && two_digits_between(value, 6, 0, 60)
}

// The date and the time of `YYYYMMDD-HH:MM:SS`.
#[tactic(auto, using(crate::specs::StrictDateLaws::is_strict_utc_timestamp_short))]
pub fn is_strict_utc_timestamp(value: &[u8]) -> bool
    ensures outcome { result ≡ is_strict_utc_timestamp value.now }
{
    9 <= value.len() && is_strict_date(&value[..8]) && is_strict_time_of_day(&value[9..])
}
