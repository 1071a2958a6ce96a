// Cases of `check_dictionary_text` and `check_layout_text`: a text, then `accepted` and its number
// of lines, or `refused` with the number and the place. After the number of lines of a dictionary
// text stand its words, which replay_words compares; those of a layout text stand on a line of their
// own.
use crate::recorded_text::TextAbove;
use layout_text::layout_text::check_layout_text;
use refusals::refusal::Refusal;
use replay_lines::cases::{ByteCases, Replayed, Unread};
use replay_lines::given::{Refused, is_refusal};
use replay_lines::recorded_values::{same_number, split_kind};
use texts::dictionary_text::check_dictionary_text;

#[derive(Drop)]
pub struct DictionaryTextCases<'a> {
    text: TextAbove<'a>,
}

impl<'a> DictionaryTextCases<'a> {
    pub fn new(bytes: &'a mut [u8]) -> Self {
        Self {
            text: TextAbove::new(bytes),
        }
    }
}

impl ByteCases for DictionaryTextCases<'_> {
    fn replay(&mut self, line: &[u8]) -> Result<Option<Replayed>, Unread> {
        let (text, answer) = self.text.read(line)?;
        let recorded = split_kind(answer).1;
        let same = match check_dictionary_text(text) {
            Ok(counts) => is_accepted(answer) && same_number(counts.lines, split_kind(recorded).0),
            Err(refusal) => is_recorded(refusal, answer),
        };
        Ok(Some(Replayed::from(same)))
    }
}

fn is_accepted(answer: &[u8]) -> bool {
    answer.starts_with(b"a")
}

// Whether the answer is this refusal.
fn is_recorded(refusal: Refusal, answer: &[u8]) -> bool {
    is_refusal(answer) && Refused::recorded(split_kind(answer).1) == Some(Refused::from(refusal))
}

#[derive(Drop)]
pub struct LayoutTextCases<'a> {
    text: TextAbove<'a>,
}

impl<'a> LayoutTextCases<'a> {
    pub fn new(bytes: &'a mut [u8]) -> Self {
        Self {
            text: TextAbove::new(bytes),
        }
    }
}

// The order of a layout text's lines; a text that is refused with 10 or 11 has its lines in order.
impl ByteCases for LayoutTextCases<'_> {
    fn replay(&mut self, line: &[u8]) -> Result<Option<Replayed>, Unread> {
        let (text, answer) = self.text.read(line)?;
        if line.starts_with(b"w") {
            return Ok(None);
        }
        let same = match check_layout_text(text) {
            Ok(lines) => is_ordered(lines, answer),
            Err(refusal) => is_recorded(refusal, answer),
        };
        Ok(Some(Replayed::from(same)))
    }
}

// Recorded as accepted with so many lines, or refused with a number of two digits: 10 or 11.
fn is_ordered(lines: u64, answer: &[u8]) -> bool {
    let recorded = split_kind(answer).1;
    if is_accepted(answer) {
        return same_number(lines, recorded);
    }
    split_kind(recorded).0.len() == 2
}
