// Values in the recorded lists: bytes in lower-case hexadecimal, `-` for no bytes, and decimal
// numbers with single spaces between them. `read_numbers` takes any text.
ghost use Rattle.std.specs.Prelude.{◌≡◌, ◌≢◌, ◌==◌, ◌*◌, ◌/◌, [], ◌++◌, ◌∷◌, ◌↔◌, ◌≤◌, IfOk, IsTrue, codes, length, max, position, take};
ghost use Rattle.std.specs.List.{before_first, after_first};
ghost use Rattle.hex.specs.Hex.{decode_of};
ghost use Rattle.counts.specs.Count.{count_of};

use crate::cases::{NotReplayed, Unread};
use counts::count::parse_count;
use std::alloc::Global;
use std::num::ParseIntError;
use std::str::FromStr;

pub fn read_bytes<'a>(text: &[u8], bytes: &'a mut [u8]) -> Result<&'a [u8], Unread>
    ensures none { text.now ≡ codes "-" → IfOk result (λ bytes. bytes.now ≡ []) }
    ensures some { text.now ≢ codes "-" →
        IfOk result (λ bytes. decode_of text.now ≡ Ok bytes.now) }
    ensures room { IfOk result (λ read. length read.now ≤ length bytes.old) }
{
    if text == b"-".as_slice() {
        return Ok(&bytes[..0]);
    }
    let bytes = bytes.get_mut(..text.len() / 2).ok_or(Unread::NoForm)?;
    hex::decode_to_slice(text, bytes)?;
    Ok(bytes)
}

// The bytes as a list has them: none where the text is one byte, as - is; a digit at the end that
// has no other after it is passed over. A digit in upper case is of no known form.
pub fn read_pairs<'a>(text: &[u8], bytes: &'a mut [u8]) -> Result<&'a [u8], Unread>
    ensures one { length text.now ≡ 1 → IfOk result (λ bytes. bytes.now ≡ []) }
    ensures pairs { length text.now ≢ 1 → IfOk result (λ bytes.
        decode_of (take (length text.now / 2 * 2) text.now) ≡ Ok bytes.now) }
    ensures room { IfOk result (λ read. length read.now ≤ length bytes.old) }
{
    if text.len() == 1 {
        return Ok(&bytes[..0]);
    }
    let pairs = &text[..text.len() / 2 * 2]; // no byte alone, so not "-"
    if pairs.iter().any(|byte| byte.is_ascii_uppercase()) {
        return Err(Unread::NoForm);
    }
    read_bytes(pairs, bytes)
}

// The numbers of a text that have spaces or other white space between them, each as `parse` takes
// it.
pub fn read_numbers<W: FromStr<Err = ParseIntError> + Drop>(
    alloc: Global,
    text: &str,
) -> Result<Vec<W>, NotReplayed> {
    text.split_ascii_whitespace()
        .map(|word| -> Result<W, NotReplayed> { Ok(word.parse::<W>()?) })
        .try_collect(alloc)
}

// Puts the numbers at the start of the room, and gives them.
pub fn read_numbers_in<'a, W: FromStr<Err = ParseIntError> + Drop>(
    text: &[u8],
    room: &'a mut [W],
) -> Result<&'a [W], Unread>
    ensures { IfOk result (λ numbers. length numbers.now ≤ length room.old) }
{
    let count = put_all_numbers(text, room)?;
    Ok(room.split_at(count).0)
}

// More numbers than this are on no line of the lists that the program replays.
pub const MOST_NUMBERS: usize = 24576;

// How many numbers a line may have, or words a part on it, where cases are lent room for so many
// numbers: MOST_NUMBERS, or as many as have room where that is more.
pub fn most_numbers(room: usize) -> usize
    ensures { result ≡ max room 24576 }
{
    room.max(MOST_NUMBERS)
}

// As `read_numbers_in`, but more numbers than MOST_NUMBERS are of no known form, whatever the room.
pub fn read_line_numbers<'a, W: FromStr<Err = ParseIntError> + Drop>(
    text: &[u8],
    room: &'a mut [W],
) -> Result<&'a [W], Unread>
    ensures room { IfOk result (λ numbers. length numbers.now ≤ length room.old) }
    ensures most { IfOk result (λ numbers. length numbers.now ≤ 24576) }
{
    let count = put_numbers(text, room)?;
    Ok(room.split_at(count).0)
}

// Puts the numbers of a line of a list at the start of the room, and answers how many there are.
fn put_numbers<W: FromStr<Err = ParseIntError> + Drop>(
    text: &[u8],
    room: &mut [W],
) -> Result<usize, Unread>
    ensures room { IfOk result (λ count. count ≤ length room.old) }
    ensures most { IfOk result (λ count. count ≤ 24576) }
{
    let most = room.len().min(MOST_NUMBERS);
    put_all_numbers(text, &mut room[..most])
}

// Puts the numbers at the start of the room, and answers how many there are.
fn put_all_numbers<W: FromStr<Err = ParseIntError> + Drop>(
    text: &[u8],
    room: &mut [W],
) -> Result<usize, Unread>
    ensures { IfOk result (λ count. count ≤ length room.old) }
{
    let most = room.len();
    let mut rest = text;
    for (count, number) in room.iter_mut().enumerate() {
        if rest.is_empty() {
            return Ok(count);
        }
        let (word, after) = split_kind(rest);
        *number = read_number::<W>(word)?;
        rest = after;
    }
    if rest.is_empty() {
        Ok(most)
    } else {
        Err(Unread::NoForm)
    }
}

// A number in digits alone.
fn read_number<W: FromStr<Err = ParseIntError> + Drop>(word: &[u8]) -> Result<W, Unread> {
    match str::from_utf8(word) {
        Ok(digits) if !digits.starts_with('+') => Ok(digits.parse::<W>()?),
        _ => Err(Unread::NoForm),
    }
}

// Whether the number is the one recorded.
pub fn same_number(number: u64, recorded: &[u8]) -> bool
    ensures { IsTrue result ↔ (count_of recorded.now ≡ Some number) }
{
    parse_count(recorded) == Some(number)
}

// Where the line's first space stands.
fn space_in(line: &[u8]) -> Option<usize>
    ensures { result ≡ position (λ byte. byte == 32) line.now }
{
    line.iter().position(|byte| *byte == b' ')
}

// The line's first word, and what follows it and a space: nothing where there is no space.
pub fn split_kind(line: &[u8]) -> (&[u8], &[u8])
    ensures word { result.0.now ≡ before_first (λ byte. byte == 32) line.now }
    ensures rest { result.1.now ≡ after_first (λ byte. byte == 32) line.now }
{
    match space_in(line) {
        Some(space) => (&line[..space], &line[space + 1..]),
        None => (line, &line[line.len()..]),
    }
}

// The same, where something has to follow.
pub fn first_word(line: &[u8]) -> Result<(&[u8], &[u8]), Unread>
    ensures parts { IfOk result (λ parts. line.now ≡ parts.0.now ++ 32 ∷ parts.1.now) }
    ensures word { IfOk result (λ parts. parts.0.now ≡ before_first (λ byte. byte == 32) line.now) }
{
    match space_in(line) {
        Some(space) => Ok((&line[..space], &line[space + 1..])),
        None => Err(Unread::NoForm),
    }
}
