// A line of a dictionary text as a record of ten words.
ghost use Rattle.std.specs.Prelude.{◌≡◌, ◌+◌, ◌*◌, ◌/◌, ◌%◌, ◌≤◌, length, get_or, take, drop, bit_or};
ghost use Rattle.std.specs.List.{fold};
ghost use Rattle.ascii.specs.Bytes.{every};
ghost use Rattle.lines.specs.LineParts.{number_of, is_alphanumeric, is_visible};
ghost use Rattle.records.specs.Records.{holds_part, letters_length, letters_text, holds_letters, holds_value, is_zero, is_unused, if_unused, def_from, admitted_from, value_from, message_from, flag_from, group_from, end_of_letters, end_of_number, line_from};
ghost use Rattle.records.specs.WordPairs.{pair_of, pair_at};

use crate::record_kind::RecordKind;
use line_forms::line::Line;
use lines::line_parts::{Admitted, all_alphanumeric, parse_number};

// How many words a record has.
pub const RECORD: usize = 10;

// A line as ten words.
pub type Record = [u32; RECORD];

// How many letters or digits the T of this word has.
pub fn letters_length(word: u32) -> u32
    ensures length { result ≡ letters_length word }
    ensures range { (1 ≤ result) × (result ≤ 4) }
{
    let [_, byte1, byte2, byte3] = word.to_be_bytes();
    if byte1 == 0 {
        1
    } else if byte2 == 0 {
        2
    } else if byte3 == 0 {
        3
    } else {
        4
    }
}

// The bytes after those of a T or a value are 0.
#[inline(always)]
fn all_zero(bytes: &[u8]) -> bool
    ensures { result ≡ every is_zero bytes.now }
{
    bytes.iter().all(|byte| *byte == 0)
}

// The word is some T's: 1 to 4 letters or digits.
fn holds_letters(word: u32) -> bool
    ensures { result ≡ holds_letters word }
{
    let bytes = word.to_be_bytes();
    let (letters, unused) = bytes.split_at(letters_length(word) as usize);
    all_alphanumeric(letters) && all_zero(unused)
}

// A byte in a word is 21 to 7E.
#[tactic(auto, unfolding(ascii::specs::Notation::is_between))]
fn is_visible(byte: u32) -> bool
    ensures { result ≡ is_visible byte }
{
    (0x21..=0x7E).contains(&byte)
}

fn holds_one_visible(word: u32) -> bool
    ensures { result ≡ holds_part is_visible 1 word }
{
    if word % 0x100_0000 != 0 {
        return false;
    }
    is_visible(word / 0x100_0000)
}

// The first `left` bytes of the word are 21 to 7E, and those after them are 0. By arithmetic: by
// the bytes of the word (to_be_bytes, split_at) the check of a dictionary took 5 % more instructions.
pub fn holds_visible_part(left: u32, word: u32) -> bool
    ensures { result ≡ holds_part is_visible left word }
{
    // most values are short: one byte, and the words after it need one look each
    if left == 0 {
        return word == 0;
    }
    if left == 1 {
        return holds_one_visible(word);
    }
    if !is_visible(word / 0x100_0000) {
        return false;
    }
    if !is_visible(word / 0x1_0000 % 0x100) {
        return false;
    }
    if left == 2 {
        return word % 0x1_0000 == 0;
    }
    if !is_visible(word / 0x100 % 0x100) {
        return false;
    }
    if left == 3 {
        return word % 0x100 == 0;
    }
    is_visible(word % 0x100)
}

// The words hold so many bytes 21 to 7E, and 0 after them.
fn holds_value(len: u32, words: &[u32]) -> bool
    ensures { result ≡ holds_value len words.now }
{
    let mut left = len;
    for word in words {
        if !holds_visible_part(left, *word) {
            return false;
        }
        left = left.saturating_sub(4);
    }
    left == 0
}

// Two words that stand side by side as one number, so that one load reads both.
pub fn pair_at(words: &[u32], at: usize) -> u64
    requires { at + 2 ≤ length words.now }
    ensures pair { result ≡ pair_at words.now at }
    ensures halves { (result % 4294967296 ≡ get_or words.now at 0) × (result / 4294967296 ≡ get_or words.now (at + 1) 0) }
{
    words[at] as u64 + 0x1_0000_0000 * (words[at + 1] as u64)
}

// The words joined, which is 0 where each of them is: one test of it takes less than a jump for
// each word.
fn joined(words: &[u32]) -> u32
    ensures { result ≡ fold bit_or 0 words.now }
{
    words.iter().fold(0, |joined, word| joined | *word)
}

// Every word after the first `used` is 0.
#[inline(always)]
fn is_unused(used: usize, words: &Record) -> bool
    requires { used ≤ 10 }
    ensures { result ≡ is_unused used words.now }
{
    joined(&words[used..]) == 0
}

fn def_from(words: &Record) -> Line
    ensures { result ≡ def_from words.now }
{
    if words[2] < 34 && is_unused(3, words) {
        return Line::Def(words[1], words[2]);
    }
    Line::Unknown
}

fn admitted_from(words: &Record) -> Admitted
    ensures { result ≡ admitted_from words.now }
{
    let [
        _,
        len,
        word0,
        word1,
        word2,
        word3,
        word4,
        word5,
        word6,
        word7,
    ] = *words;
    Admitted {
        len,
        word0,
        word1,
        word2,
        word3,
        word4,
        word5,
        word6,
        word7,
    }
}

fn value_from(words: &Record) -> Line
    ensures { result ≡ value_from words.now }
{
    if words[1] >= 1 && holds_value(words[1], &words[2..]) {
        return Line::Value(admitted_from(words));
    }
    Line::Unknown
}

// R, or whether a T is of an application, where it is the last word that is used.
fn flag_from(words: &Record) -> Option<bool>
    ensures { result ≡ flag_from words.now }
{
    if words[2] <= 1 && is_unused(3, words) {
        return Some(words[2] == 1);
    }
    None
}

fn message_from(words: &Record) -> Line
    ensures { result ≡ message_from words.now }
{
    match flag_from(words) {
        Some(app) if holds_letters(words[1]) => Line::Message(words[1], app),
        _ => Line::Unknown,
    }
}

fn group_from(words: &Record) -> Line
    ensures { result ≡ group_from words.now }
{
    if words[3] <= 1 && is_unused(4, words) {
        return Line::Group(words[1], words[2], words[3] == 1);
    }
    Line::Unknown
}

// The number that the letters of a T make, where they are one.
fn letters_number(word: u32) -> Option<u32>
    ensures { result ≡ number_of (letters_text word) }
{
    let bytes = word.to_be_bytes();
    parse_number(&bytes[..letters_length(word) as usize])
}

fn end_of_letters(words: &Record) -> Line
    ensures { result ≡ end_of_letters words.now }
{
    if holds_letters(words[1]) && is_unused(2, words) {
        return Line::End(letters_number(words[1]), Some(words[1]));
    }
    Line::Unknown
}

fn end_of_number(words: &Record) -> Line
    ensures { result ≡ end_of_number words.now }
{
    if words[1] >= 10000 && is_unused(2, words) {
        return Line::End(Some(words[1]), None);
    }
    Line::Unknown
}

// The line, where the words are 0 that its kind does not use.
#[inline(always)]
fn line_if_unused(used: usize, words: &Record, line: Line) -> Line
    requires { used ≤ 10 }
    ensures { result ≡ if_unused used words.now line }
{
    if is_unused(used, words) {
        return line;
    }
    Line::Unknown
}

// The line of ten words. Unknown, where they are the record of none, is one of the forms that the
// order of lines is told of: so it is a line here too, and no Option.
pub fn line_from(words: &Record) -> Line
    ensures { result ≡ line_from words.now }
{
    let Ok(kind) = RecordKind::try_from(words[0]) else {
        return Line::Unknown;
    };
    match kind {
        RecordKind::Def => def_from(words),
        RecordKind::Value => value_from(words),
        RecordKind::BeginHeader => line_if_unused(1, words, Line::BeginHeader),
        RecordKind::BeginTrailer => line_if_unused(1, words, Line::BeginTrailer),
        RecordKind::Component => line_if_unused(2, words, Line::Component(words[1])),
        RecordKind::Message => message_from(words),
        RecordKind::Field => {
            flag_from(words).map_or(Line::Unknown, |required| Line::Field(words[1], required))
        }
        RecordKind::Group => group_from(words),
        RecordKind::Use => {
            flag_from(words).map_or(Line::Unknown, |required| Line::Use(words[1], required))
        }
        RecordKind::EndHeader => line_if_unused(1, words, Line::EndHeader),
        RecordKind::EndTrailer => line_if_unused(1, words, Line::EndTrailer),
        RecordKind::EndLetters => end_of_letters(words),
        RecordKind::EndNumber => end_of_number(words),
    }
}

// The record at this place.
pub fn record_at(words: &[u32], at: usize) -> &Record
    requires { at + 10 ≤ length words.now }
    ensures { result.now ≡ take 10 (drop at words.now) }
{
    match words[at..].first_chunk() {
        Some(record) => record,
        None => unreachable!(),
    }
}

// The line of the record at this place.
pub fn line_at(words: &[u32], at: usize) -> Line
    requires { at + 10 ≤ length words.now }
    ensures { result ≡ line_from (take 10 (drop at words.now)) }
{
    line_from(record_at(words, at))
}
