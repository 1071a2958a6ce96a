// The values that a field of each data type may have. Ported from schema.rs,
// `FieldType::is_valid_value`.
ghost use Rattle.std.specs.Prelude.{◌≡◌};
ghost use Rattle.formats.specs.FieldValue.{is_of_format, is_valid_value, is_in_ranges, is_strict_value};

use crate::boolean::is_boolean;
use ascii::digits::is_digits_of_len;
use ascii::letters::is_alpha_of_len;
use characters::characters::count_chars;
use dates::date::{is_month_year, is_time_of_day, is_utc_timestamp};
use field_types::field_type::{FieldType, Format};
use multi_values::multi_value::is_multi_value_list;
use numbers::number::{is_day_of_month, is_decimal, is_integer};
use strict_dates::strict_date::{
    is_strict_date, is_strict_month_year, is_strict_time_of_day, is_strict_utc_timestamp,
};

// Returns true if `value` has this form.
#[tactic(auto, unfolding(crate::specs::FieldValue::is_of_format))]
pub fn is_of_format(format: Format, value: &[u8]) -> bool
    ensures outcome { result ≡ is_of_format format value.now }
{
    match format {
        Format::SignedInteger => is_integer(value, true),
        Format::UnsignedInteger => is_integer(value, false),
        Format::Day => is_day_of_month(value),
        Format::Decimal => is_decimal(value),
        Format::OneCharacter => count_chars(value) == 1,
        Format::YesOrNo => is_boolean(value),
        Format::Tokens(token_len) => is_multi_value_list(value, token_len),
        Format::Letters(len) => is_alpha_of_len(value, len),
        Format::YearMonth => is_month_year(value),
        Format::Date => is_digits_of_len(value, 8),
        Format::TimeOfDay => is_time_of_day(value),
        Format::DateAndTime => is_utc_timestamp(value),
        Format::Anything => true,
    }
}

// Returns true if the numbers of a date or time of this form are in strict mode's ranges. Not in
// the Rust.
#[tactic(auto, unfolding(crate::specs::FieldValue::is_in_ranges))]
pub fn is_in_ranges(format: Format, value: &[u8]) -> bool
    ensures outcome { result ≡ is_in_ranges format value.now }
{
    match format {
        Format::YearMonth => is_strict_month_year(value),
        Format::Date => is_strict_date(value),
        Format::TimeOfDay => is_strict_time_of_day(value),
        Format::DateAndTime => is_strict_utc_timestamp(value),
        _ => true,
    }
}

// Returns true if `value` has the on-the-wire form this type admits. The type is the definition's and
// the value the message's: no struct holds both.
pub fn is_valid_value(field_type: FieldType, value: &[u8]) -> bool
    ensures outcome { result ≡ is_valid_value field_type value.now }
{
    is_of_format(field_type.format(), value)
}

// Returns true if `value` has the form this type admits and is in strict mode's ranges.
pub fn is_strict_value(field_type: FieldType, value: &[u8]) -> bool
    ensures outcome { result ≡ is_strict_value field_type value.now }
{
    let format = field_type.format();
    is_of_format(format, value) && is_in_ranges(format, value)
}
