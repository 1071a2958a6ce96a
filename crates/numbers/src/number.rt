// Whole and decimal numbers (FIX: int, float, day-of-month). Ported from schema.rs.
ghost use Rattle.std.specs.Prelude.{◌≡◌};
ghost use Rattle.numbers.specs.Number.{without_sign, is_integer, is_decimal_body, is_decimal, is_day_of_month};

use ascii::digits::is_digits;

// The value without the minus sign that it may begin with.
#[tactic(auto, using(crate::specs::NumberLaws::is_signed_is))]
fn without_sign(value: &[u8]) -> &[u8]
    ensures { result.now ≡ without_sign value.now }
{
    match value {
        [b'-', rest @ ..] => rest,
        _ => value,
    }
}

// Returns true for a non-empty run of ASCII digits, optionally signed.
pub fn is_integer(value: &[u8], allow_sign: bool) -> bool
    ensures outcome { result ≡ is_integer allow_sign value.now }
{
    is_digits(if allow_sign {
        without_sign(value)
    } else {
        value
    })
}

// Returns true for digits and points, at least one digit and at most one point.
#[tactic(auto, unfolding(ascii::specs::Notation::is_between))]
fn is_decimal_body(body: &[u8]) -> bool
    ensures { result ≡ is_decimal_body body.now }
{
    let mut digits: usize = 0;
    let mut points: usize = 0;
    for byte in body {
        match byte {
            b'0'..=b'9' => digits += 1,
            b'.' => points += 1,
            _ => return false,
        }
    }
    1 <= digits && points <= 1
}

// Returns true for a FIX decimal: optional sign, digits, at most one point.
pub fn is_decimal(value: &[u8]) -> bool
    ensures outcome { result ≡ is_decimal value.now }
{
    is_decimal_body(without_sign(value))
}

// Returns true for digits that make a number from 1 to 31. The Rust parses a u32; here the first
// digits that make more than 31 decide, so that no length overflows.
#[tactic(auto, unfolding(ascii::specs::Notation::is_between))]
pub fn is_day_of_month(value: &[u8]) -> bool
    ensures outcome { result ≡ is_day_of_month value.now }
{
    let mut day: u32 = 0;
    for byte in value {
        if !byte.is_ascii_digit() {
            return false;
        }
        day = day * 10 + u32::from(*byte - b'0');
        if 31 < day {
            return false;
        }
    }
    1 <= day
}
