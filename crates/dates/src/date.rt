// Dates and times by pictures (FIX: MonthYear, UTCDateOnly, LocalMktDate, UTCTimeOnly,
// UTCTimestamp). Ported from schema.rs, with fixed places for its splits. A date of UTCDateOnly and
// LocalMktDate is is_digits_of_len(value, 8).
ghost use Rattle.std.specs.Prelude.{◌≡◌};
ghost use Rattle.std.specs.List.{list_all, zip};
ghost use Rattle.dates.specs.Date.{stands_for, has_picture, is_month_year, is_fraction, is_time_of_day, is_utc_timestamp};

use ascii::digits::{all_digits, is_digits_of_len};

// Returns true where a picture's letter stands for the byte: an upper-case letter for every digit,
// another byte for itself.
#[tactic(auto, unfolding(ascii::specs::Notation::is_between))]
fn stands_for(letter: u8, byte: u8) -> bool
    ensures { result ≡ stands_for letter byte }
{
    if letter.is_ascii_uppercase() {
        byte.is_ascii_digit()
    } else {
        byte == letter
    }
}

// Returns true where each of the picture's letters stands for the value's byte beside it.
fn stand_for_each(picture: &[u8], value: &[u8]) -> bool
    ensures { result ≡ list_all (λ pair. stands_for pair.0 pair.1) (zip picture.now value.now) }
{
    picture
        .iter()
        .zip(value)
        .all(|(letter, byte)| stands_for(*letter, *byte))
}

// Returns true where the value is as long as the picture and has at each place what the picture's
// letter stands for.
#[tactic(auto, using(crate::specs::DateLaws::has_picture_other_length))]
pub fn has_picture(value: &[u8], picture: &[u8]) -> bool
    ensures outcome { result ≡ has_picture picture.now value.now }
{
    value.len() == picture.len() && stand_for_each(picture, value)
}

// Returns true for `YYYYMM`, `YYYYMMDD`, or `YYYYMMww` (week 1-5).
#[tactic(auto, using(crate::specs::DateLaws::has_picture_length), unfolding(ascii::specs::Notation::is_between))]
pub fn is_month_year(value: &[u8]) -> bool
    ensures outcome { result ≡ is_month_year value.now }
{
    is_digits_of_len(value, 6)
        || is_digits_of_len(value, 8)
        || has_picture(value, b"YYYYMMwN") && matches!(value[7], b'1'..=b'5')
}

// Returns true for what may stand after the seconds: nothing, or a point and 1 to 12 digits.
#[tactic(auto, unfolding(ascii::specs::Notation::is_between))]
fn is_fraction(rest: &[u8]) -> bool
    ensures { result ≡ is_fraction rest.now }
{
    match rest {
        [] => true,
        [b'.', digits @ ..] => matches!(digits.len(), 1..=12) && all_digits(digits),
        _ => false,
    }
}

// Returns true for `HH:MM:SS` with an optional fractional second.
#[tactic(auto, using(crate::specs::DateLaws::is_time_of_day_short))]
pub fn is_time_of_day(value: &[u8]) -> bool
    ensures outcome { result ≡ is_time_of_day value.now }
{
    match value.split_at_checked(8) {
        Some((clock, rest)) => has_picture(clock, b"HH:MM:SS") && is_fraction(rest),
        None => false,
    }
}

// Returns true for a date, a hyphen and a time of day. The Rust's arm UtcTimestamp of
// is_valid_value.
#[tactic(auto, using(crate::specs::DateLaws::is_utc_timestamp_short))]
pub fn is_utc_timestamp(value: &[u8]) -> bool
    ensures outcome { result ≡ is_utc_timestamp value.now }
{
    match value.split_at_checked(9) {
        Some((date, time)) => has_picture(date, b"YYYYMMDD-") && is_time_of_day(time),
        None => false,
    }
}
