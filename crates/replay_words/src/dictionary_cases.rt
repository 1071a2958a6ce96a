// Cases of `read_dictionary`: a text, then `accepted`, its number of lines and the words of its
// dictionary, or `refused` with the number and the place. Of a text that is too long for its words
// to be recorded, the number of lines is compared.
use crate::dictionary_line::dictionary_given;
use crate::recorded_words::replay_numbers;
use replay_lines::cases::{ByteCases, Replayed, Unread};
use replay_lines::given::{Refused, is_refusal};
use replay_lines::recorded_values::{read_numbers_in, same_number, split_kind};
use replay_space::in_space::{is_short_of_one, replay_refused};
use replay_space::space::{clear, make_space};
use replay_texts::recorded_text::TextAbove;

#[derive(Drop)]
pub struct DictionaryCases<'a> {
    text: TextAbove<'a>,
    numbers: &'a mut [u64],
    words: &'a mut [u32],
    space: &'a mut [u32],
}

impl<'a> DictionaryCases<'a> {
    pub fn new(
        bytes: &'a mut [u8],
        numbers: &'a mut [u64],
        words: &'a mut [u32],
        space: &'a mut [u32],
    ) -> Self {
        Self {
            text: TextAbove::new(bytes),
            numbers,
            words,
            space: make_space(space),
        }
    }
}

impl ByteCases for DictionaryCases<'_> {
    fn replay(&mut self, line: &[u8]) -> Result<Option<Replayed>, Unread> {
        let (text, answer) = self.text.read(line)?;
        let space = &mut *self.space;
        let numbered = split_kind(answer).1;
        if is_refusal(answer) {
            return Ok(Some(replay_refusal(text, numbered, space)));
        }
        let numbers = &mut *self.numbers;
        let words = &mut *self.words;
        Ok(Some(replay_words(text, numbered, numbers, words, space)?))
    }
}

// The text beside the refusal that was recorded.
fn replay_refusal(text: &[u8], numbered: &[u8], space: &mut [u32]) -> Replayed {
    let refused = Refused::recorded(numbered);
    replay_refused(|lent| dictionary_given(text, lent), refused, space)
}

// The text beside the number of its lines and the words that were recorded of its dictionary.
fn replay_words(
    text: &[u8],
    numbered: &[u8],
    numbers: &mut [u64],
    words: &mut [u32],
    space: &mut [u32],
) -> Result<Replayed, Unread> {
    let recorded = read_numbers_in(split_kind(numbered).1, numbers)?;
    if recorded.is_empty() {
        return Ok(replay_long(text, numbered, space));
    }
    replay_numbers(
        |lent| dictionary_given(text, lent),
        0,
        recorded,
        words,
        space,
    )
}

// A text whose words were not recorded: the first word is its number of lines.
fn replay_long(text: &[u8], lines: &[u8], space: &mut [u32]) -> Replayed {
    let Ok(written) = dictionary_given(text, space) else {
        return Replayed::Differs;
    };
    let same = space
        .first()
        .is_some_and(|first| same_number(u64::from(*first), lines));
    clear(space);
    Replayed::from(
        same && is_short_of_one(&|lent| dictionary_given(text, lent), written.words, space),
    )
}
