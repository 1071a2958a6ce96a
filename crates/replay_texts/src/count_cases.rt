// Cases of `parse_count`: the value in hexadecimal, then the number that the Rust gave, or `none`.
use counts::count::parse_count;
use itoa::Buffer;
use replay_lines::cases::{ByteCases, Replayed, Unread};
use replay_lines::recorded_values::{first_word, read_pairs};

#[derive(Drop)]
pub struct CountCases;

// A value has at most so many bytes.
const VALUE_BYTES: usize = 64;

impl ByteCases for CountCases {
    fn replay(&mut self, line: &[u8]) -> Result<Option<Replayed>, Unread> {
        let (value, answer) = first_word(line)?;
        let mut bytes = [0u8; VALUE_BYTES];
        let value = read_pairs(value, &mut bytes)?;
        let same = is_recorded(parse_count(value), answer);
        Ok(Some(Replayed::from(same)))
    }
}

// Whether the answer is the one recorded: decimal digits, or `none`.
fn is_recorded(count: Option<u64>, answer: &[u8]) -> bool {
    match count {
        Some(number) => Buffer::new().format(number).as_bytes() == answer,
        None => answer.len() == 4 && answer.starts_with(b"n"),
    }
}
