// Cases of `read_layout`: a text, then `accepted` and its number of lines, with the words of its
// layout on the line after it, or `refused` with the number and the place.
use crate::recorded_words::replay_numbers;
use read_layout::read_layout::read_layout;
use replay_lines::cases::{ByteCases, Replayed, Unread};
use replay_lines::given::{Given, Refused, Written, is_refusal};
use replay_lines::recorded_values::{read_numbers_in, split_kind};
use replay_space::in_space::replay_refused;
use replay_space::space::make_space;
use replay_texts::recorded_text::TextAbove;

#[derive(Drop)]
pub struct LayoutCases<'a> {
    text: TextAbove<'a>,
    numbers: &'a mut [u64],
    words: &'a mut [u32],
    space: &'a mut [u32],
}

impl<'a> LayoutCases<'a> {
    pub fn new(
        bytes: &'a mut [u8],
        numbers: &'a mut [u64],
        words: &'a mut [u32],
        space: &'a mut [u32],
    ) -> Self {
        Self {
            text: TextAbove::new(bytes),
            numbers,
            words,
            space: make_space(space),
        }
    }
}

impl ByteCases for LayoutCases<'_> {
    fn replay(&mut self, line: &[u8]) -> Result<Option<Replayed>, Unread> {
        let (text, answer) = self.text.read(line)?;
        let space = &mut *self.space;
        if line.starts_with(b"w") {
            let numbers = &mut *self.numbers;
            let words = &mut *self.words;
            return Ok(Some(replay_words(text, answer, numbers, words, space)?));
        }
        if answer.starts_with(b"a") {
            return Ok(None);
        }
        Ok(Some(replay_refusal(text, answer, space)))
    }
}

// The text beside the words that were recorded of its layout.
fn replay_words(
    text: &[u8],
    answer: &[u8],
    numbers: &mut [u64],
    words: &mut [u32],
    space: &mut [u32],
) -> Result<Replayed, Unread> {
    let recorded = read_numbers_in(answer, numbers)?;
    replay_numbers(|lent| layout_given(text, lent), 0, recorded, words, space)
}

// The text beside the refusal that was recorded.
fn replay_refusal(text: &[u8], answer: &[u8], space: &mut [u32]) -> Replayed {
    let refused = Refused::recorded(split_kind(answer).1);
    replay_refused(|lent| layout_given(text, lent), refused, space)
}

fn layout_given(text: &[u8], space: &mut [u32]) -> Given {
    read_layout(text, space).map(Written::from)
}
