// How long the texts of lines are.
ghost use Rattle.std.specs.Prelude.{◌≡◌, true, ◌+◌, ◌*◌, ◌≤◌, get_or, length, drop, nat_le, count_by};
ghost use Rattle.ascii.specs.Notation.{◌≡ᵇ◌};
ghost use Rattle.records.specs.Records.{line_from, lines_from};
ghost use Rattle.records.specs.KnownLines.{is_known, AreKnown};
ghost use Rattle.records.specs.LineLengths.{digit_count, type_lengths, app_length, length_of, text_length};

use crate::record_kind::RecordKind;
use crate::records::{RECORD, Record, letters_length, record_at};

// A number has one digit, and one more for each of these that it reaches.
const POWERS_OF_TEN: [u32; 9] = [
    10, 100, 1000, 10000, 100000, 1000000, 10000000, 100000000, 1000000000,
];

// How many of the powers the number reaches.
fn count_reached(powers: &[u32], n: u32) -> usize
    ensures { result ≡ count_by (λ power. nat_le power n) powers.now }
{
    powers.iter().filter(|power| **power <= n).count()
}

// How many digits the number has.
pub fn digit_count(n: u32) -> usize
    ensures count { result ≡ digit_count n }
    ensures few { result ≤ 10 }
{
    1 + count_reached(&POWERS_OF_TEN, n)
}

// How long the names of the FieldTypes are, Int to Reserved.
static TYPE_LENGTHS: [u8; 34] = [
    3, 6, 6, 10, 6, 10, 5, 3, 5, 11, 3, 10, 4, 7, 6, 17, 19, 7, 8, 8, 9, 12, 11, 11, 12, 12, 10,
    11, 4, 7, 8, 7, 5, 8,
];

// How long the name of the FieldType at this place is.
pub fn type_length(place: u32) -> usize
    ensures length { result ≡ get_or type_lengths place 0 }
    ensures few { result ≤ 255 }
{
    TYPE_LENGTHS.get(place as usize).copied().unwrap_or(0) as usize
}

// How long `app` is, or `admin`.
fn app_length(app: u32) -> usize
    ensures length { result ≡ app_length (app ≡ᵇ 1) }
    ensures few { result ≤ 5 }
{
    if app == 1 { 3 } else { 5 }
}

// How many bytes the line of the record has, with its line feed.
fn record_length(words: &Record) -> usize
    requires { is_known (line_from words.now) ≡ true }
    ensures length { result ≡ length_of (line_from words.now) + 1 }
{
    let Ok(kind) = RecordKind::try_from(words[0]) else {
        unreachable!();
    };
    match kind {
        RecordKind::Def => 6 + digit_count(words[1]) + type_length(words[2]),
        RecordKind::Value => 7 + words[1] as usize,
        RecordKind::BeginHeader => 13,
        RecordKind::BeginTrailer => 14,
        RecordKind::Component => 11 + digit_count(words[1]),
        RecordKind::Message => 10 + letters_length(words[1]) as usize + app_length(words[2]),
        RecordKind::Field => 9 + digit_count(words[1]),
        RecordKind::Group => 10 + digit_count(words[1]) + digit_count(words[2]),
        RecordKind::Use => 7 + digit_count(words[1]),
        RecordKind::EndHeader => 11,
        RecordKind::EndTrailer => 12,
        RecordKind::EndLetters => 5 + letters_length(words[1]) as usize,
        RecordKind::EndNumber => 5 + digit_count(words[1]),
    }
}

// How many bytes the text of so many lines has.
// A slice of the records, in a struct with the bound, was tried: `is_dictionary` took 1.4 % more.
pub fn text_length(words: &[u32], lines: usize) -> usize
    requires { (lines ≤ 4294967295) × ((4 + 10 * lines ≤ length words.now) × AreKnown lines (drop 4 words.now)) }
    ensures { result ≡ text_length (lines_from lines (drop 4 words.now)) }
{
    let mut total: usize = 0;
    for number in 0..lines {
        total += record_length(record_at(words, 4 + RECORD * number));
    }
    total
}
