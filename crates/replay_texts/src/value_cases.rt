// Cases of `is_valid_value`: the type's number in two digits, the value in hexadecimal, the Rust's
// answer, then the strict answer, 1 or 0 each, with single spaces between them.
use field_types::field_type::FieldType;
use formats::field_value::{is_strict_value, is_valid_value};
use replay_lines::cases::{ByteCases, Replayed, Unread};
use replay_lines::recorded_values::read_pairs;

#[derive(Drop)]
pub struct ValueCases;

// A value has at most so many bytes.
const VALUE_BYTES: usize = 512;

impl ByteCases for ValueCases {
    fn replay(&mut self, line: &[u8]) -> Result<Option<Replayed>, Unread> {
        // the bytes after the type and between the answers are not looked at
        let [tens, ones, _, value @ .., space, plain, _, strict] = line else {
            return Err(Unread::NoForm);
        };
        if *space != b' ' || value.is_empty() || value.contains(&b' ') {
            return Err(Unread::NoForm);
        }
        let field_type = type_of(*tens, *ones).ok_or(Unread::NoForm)?;
        let mut bytes = [0u8; VALUE_BYTES];
        let value = read_pairs(value, &mut bytes)?;
        let same = recorded_as(is_valid_value(field_type, value), *plain)
            && recorded_as(is_strict_value(field_type, value), *strict);
        Ok(Some(Replayed::from(same)))
    }
}

// The type of a number in two digits.
fn type_of(tens: u8, ones: u8) -> Option<FieldType> {
    if !tens.is_ascii_digit() || !ones.is_ascii_digit() {
        return None;
    }
    FieldType::try_from(usize::from(tens - b'0') * 10 + usize::from(ones - b'0')).ok()
}

fn recorded_as(answer: bool, byte: u8) -> bool {
    byte == if answer { b'1' } else { b'0' }
}
