// The parts of a line: TAG, COUNT, DELIMITER and N; R; TYPE; T; V.
ghost use Rattle.std.specs.Prelude.{◌≡◌, ◌≤◌, ◌<◌, length, get_or};
ghost use Rattle.ascii.specs.Notation.{is_between};
ghost use Rattle.ascii.specs.Bytes.{every};
ghost use Rattle.lines.specs.Lines.{cut, comma};
ghost use Rattle.lines.specs.LineParts.{no_leading_zero, number_of, flag_of, type_in, type_of, word_at, is_alphanumeric, message_type_of, is_visible, admitted_bytes, value_of};

use crate::lines::is_same;
use counts::count::parse_count;

// An admitted value V: how many bytes it has, and its bytes, four to a word, the first highest, 0 behind the last.
#[derive(Clone, Copy)]
pub struct Admitted {
    pub len: u32,
    pub word0: u32,
    pub word1: u32,
    pub word2: u32,
    pub word3: u32,
    pub word4: u32,
    pub word5: u32,
    pub word6: u32,
    pub word7: u32,
}

fn has_no_leading_zero(bytes: &[u8]) -> bool
    ensures { result ≡ no_leading_zero bytes.now }
{
    !matches!(bytes, [b'0', _, ..])
}

// TAG, COUNT, DELIMITER, N: 32-bit, without leading zeros; 0 is allowed.
pub fn parse_number(bytes: &[u8]) -> Option<u32>
    ensures { result ≡ number_of bytes.now }
{
    if !has_no_leading_zero(bytes) {
        return None;
    }
    u32::try_from(parse_count(bytes)?).ok()
}

// R: 1 for required, else 0.
pub fn parse_flag(bytes: &[u8]) -> Option<bool>
    ensures { result ≡ flag_of bytes.now }
{
    match bytes {
        [b'1'] => Some(true),
        [b'0'] => Some(false),
        _ => None,
    }
}

// The place of the name among the names, which commas part.
fn type_in(names: &[u8], name: &[u8]) -> Option<u32>
    requires { length names.now < 1000 }
    ensures { result ≡ type_in name.now 0 (cut comma names.now) }
{
    let place = names
        .split(|byte| *byte == b',')
        .position(|each| is_same(each, name))?;
    u32::try_from(place).ok()
}

// TYPE: spelled as a FieldType.
pub fn parse_type(name: &[u8]) -> Option<u32>
    ensures { result ≡ type_of name.now }
{
    type_in(
        b"Int,Length,SeqNum,NumInGroup,TagNum,DayOfMonth,Float,Qty,Price,PriceOffset,Amt,Percentage,Char,Boolean,String,MultipleCharValue,MultipleStringValue,Country,Currency,Exchange,MonthYear,UtcTimestamp,UtcTimeOnly,UtcDateOnly,LocalMktDate,LocalMktTime,TzTimeOnly,TzTimestamp,Data,XmlData,Language,Pattern,Tenor,Reserved",
        name,
    )
}

// The byte at the index, 0 after the last.
fn byte_at(bytes: &[u8], index: usize) -> u8
    ensures { result ≡ get_or bytes.now index 0 }
{
    bytes.get(index).copied().unwrap_or(0)
}

// Four bytes from `first` on as one word, the first highest.
pub fn word_at(bytes: &[u8], first: usize) -> u32
    requires { first < 1000 }
    ensures { result ≡ word_at first bytes.now }
{
    u32::from_be_bytes([
        byte_at(bytes, first),
        byte_at(bytes, first + 1),
        byte_at(bytes, first + 2),
        byte_at(bytes, first + 3),
    ])
}

// Every byte is a letter or a digit.
#[inline(always)]
#[tactic(auto, unfolding(ascii::specs::Notation::is_between, crate::specs::LineParts::is_alphanumeric))]
pub fn all_alphanumeric(bytes: &[u8]) -> bool
    ensures { result ≡ every is_alphanumeric bytes.now }
{
    bytes.iter().all(|byte| byte.is_ascii_alphanumeric())
}

// T: 1 to 4 letters or digits.
#[tactic(auto, unfolding(ascii::specs::Notation::is_between, crate::specs::LineParts::message_type_of))]
pub fn parse_message_type(bytes: &[u8]) -> Option<u32>
    ensures { result ≡ message_type_of bytes.now }
{
    ((1..=4).contains(&bytes.len()) && all_alphanumeric(bytes)).then(|| word_at(bytes, 0))
}

// Every byte is 21 to 7E hexadecimal.
#[tactic(auto, unfolding(ascii::specs::Notation::is_between))]
fn all_visible(bytes: &[u8]) -> bool
    ensures { result ≡ every is_visible bytes.now }
{
    bytes.iter().all(|byte| byte.is_ascii_graphic())
}

fn admitted_of(bytes: &[u8]) -> Admitted
    requires { length bytes.now ≤ 32 }
    ensures { result ≡ admitted_bytes bytes.now }
{
    Admitted {
        len: bytes.len() as u32,
        word0: word_at(bytes, 0),
        word1: word_at(bytes, 4),
        word2: word_at(bytes, 8),
        word3: word_at(bytes, 12),
        word4: word_at(bytes, 16),
        word5: word_at(bytes, 20),
        word6: word_at(bytes, 24),
        word7: word_at(bytes, 28),
    }
}

// V: 1 to 32 bytes, 21 to 7E hexadecimal.
#[tactic(auto, unfolding(ascii::specs::Notation::is_between, crate::specs::LineParts::value_of))]
pub fn parse_value(bytes: &[u8]) -> Option<Admitted>
    ensures { result ≡ value_of bytes.now }
{
    ((1..=32).contains(&bytes.len()) && all_visible(bytes)).then(|| admitted_of(bytes))
}
