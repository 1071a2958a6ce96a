// Cases of `walk_message` and of `check_values`. A block has the lines `dictionary`, `layout` where
// the message is walked, `message` and `fields`; then `walk WORD WORD ..` gives the words of the
// events that the Rust's message walk has, `plain WORD WORD ..` the Rust's verdict on each field and
// `strict` that with document 01's strict mode, or `refused N P` the refusal.
use crate::calls::{message_given, verdicts_given};
use replay_lines::block::{Parts, is_part};
use replay_lines::cases::{ByteCases, Replayed, Unread};
use replay_lines::given::{Given, Refused, is_refusal};
use replay_lines::recorded_values::{most_numbers, read_numbers_in, split_kind};
use replay_space::in_space::{replay_refused, replay_written};
use replay_space::space::make_space;
use replay_words::dictionary_line::read_dictionary_line;

// What a line `dictionary` gives: its words, or a text.
#[derive(Clone, Copy, PartialEq, Eq)]
pub enum DictionaryForm {
    Words,
    Text,
}

#[derive(Drop)]
pub struct MessageCases<'a> {
    form: DictionaryForm,
    parts: Parts<'a>,
    numbers: &'a mut [u64],
    space: &'a mut [u64],
}

impl<'a> MessageCases<'a> {
    pub fn new(
        form: DictionaryForm,
        parts: Parts<'a>,
        numbers: &'a mut [u64],
        space: &'a mut [u64],
    ) -> Self {
        Self {
            form,
            parts,
            numbers,
            space: make_space(space),
        }
    }
}

impl ByteCases for MessageCases<'_> {
    fn replay(&mut self, line: &[u8]) -> Result<Option<Replayed>, Unread> {
        let (kind, rest) = split_kind(line);
        if self.form == DictionaryForm::Text && line.starts_with(b"d") {
            read_dictionary_line(rest, &mut self.parts)?;
        } else if is_part(line) {
            let most = most_numbers(self.numbers.len());
            self.parts.read_part_within(kind, rest, most)?;
        }
        let block = self.parts.block()?;
        if is_part(line) {
            return Ok(None);
        }
        let numbers = &mut *self.numbers;
        let space = &mut *self.space;
        if line.starts_with(b"w") {
            let replayed = replay_call(|lent| message_given(block, lent), rest, numbers, space)?;
            return Ok(Some(replayed));
        }
        // any other line is taken as plain
        let strict = line.starts_with(b"s");
        let replayed = replay_call(
            |lent| verdicts_given(block, strict, lent),
            rest,
            numbers,
            space,
        )?;
        Ok(Some(replayed))
    }
}

// The call beside the answer that was recorded.
fn replay_call<F: Fn(&mut [u64]) -> Given>(
    call: F,
    answer: &[u8],
    numbers: &mut [u64],
    space: &mut [u64],
) -> Result<Replayed, Unread>
    requires { F.IsAlwaysCallable call }
{
    if is_refusal(answer) {
        let refused = Refused::recorded(split_kind(answer).1);
        return Ok(replay_refused(call, refused, space));
    }
    let words = read_numbers_in(answer, numbers)?;
    Ok(replay_written(call, 0, words, space))
}
