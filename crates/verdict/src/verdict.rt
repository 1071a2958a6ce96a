// The verdict on a value. Ported from validator.rs, `check_value`; strict mode is document 01's.
ghost use Rattle.std.specs.Prelude.{◌≡◌};
ghost use Rattle.definitions.specs.Definitions.{admits_value};
ghost use Rattle.verdict.specs.Verdict.{verdict_word, has_format, admits_each, is_admitted};
ghost use Rattle.verdict.specs.FieldRecords.{record_of, recorded_verdict};

use definitions::definitions::{admits, definition_of};
use dictionary::dictionary::Dictionary;
use field_types::field_type::FieldType;
use formats::field_value::{is_in_ranges, is_of_format};

// What is said of a value, with document 01's numbers: each field gets a verdict, so `Good` is one too. The Rust pushes an error for each other.
#[derive(Clone, Copy)]
pub enum Verdict {
    Good = 0,
    // the Rust's UnknownTag
    Undefined = 1,
    // the Rust's InvalidFieldFormat
    WrongFormat = 2,
    // the Rust's InvalidEnumValue
    NotAdmitted = 3,
}

// The word that stands for the verdict.
impl From<Verdict> for u64 {
    ghost from_gives = { λ verdict word. word ≡ verdict_word verdict };

    fn from(verdict: Verdict) -> u64
        ensures outcome { result ≡ verdict_word verdict }
    {
        verdict as u64
    }
}

// Returns true if `value` has the form of its type, and in strict mode its ranges. The type is the
// definition's, the value the message's: no struct has both.
fn has_format(field_type: FieldType, value: &[u8], strict: bool) -> bool
    ensures { result ≡ has_format strict field_type value.now }
{
    let format = field_type.format();
    is_of_format(format, value) && (!strict || is_in_ranges(format, value))
}

// Returns true if the definition with this record admits every token of a space-separated list.
fn admits_each(dictionary: Dictionary<'_>, number: usize, value: &[u8]) -> bool
    ensures { result ≡ admits_each (admits_value dictionary.entry.words.now number) value.now }
{
    value
        .split(|byte| *byte == b' ')
        .all(|token| admits(dictionary, number, token))
}

// Returns true if the definition with this record, of this type, admits the value: a multi-value type every token of it.
fn is_admitted(
    dictionary: Dictionary<'_>,
    number: usize,
    field_type: FieldType,
    value: &[u8],
) -> bool
    ensures { result ≡ is_admitted (admits_value dictionary.entry.words.now number) field_type value.now }
{
    if field_type.is_multi_value() {
        admits_each(dictionary, number, value)
    } else {
        admits(dictionary, number, value)
    }
}

// The number of the record that defines the tag, or for an undefined one the number of all records.
pub fn record_of(dictionary: Dictionary<'_>, tag: u32) -> usize
    ensures { result ≡ record_of dictionary.entry.words.now tag }
{
    match definition_of(dictionary, tag) {
        Some(definition) => definition.number,
        None => dictionary.records().len(),
    }
}

// Checks that a field is defined, well-formed for its type, and — when enumerated — carries a defined value. The record of its tag was found before.
pub fn check_value(dictionary: Dictionary<'_>, number: usize, value: &[u8], strict: bool) -> Verdict
    ensures { result ≡ recorded_verdict dictionary.entry.words.now strict value.now number }
{
    let Some(record) = dictionary.records().get(number) else {
        return Verdict::Undefined;
    };
    let Ok(field_type) = FieldType::try_from(record[2] as usize) else {
        return Verdict::Undefined;
    };
    if !has_format(field_type, value, strict) {
        return Verdict::WrongFormat;
    }
    if !is_admitted(dictionary, number, field_type, value) {
        return Verdict::NotAdmitted;
    }
    Verdict::Good
}
