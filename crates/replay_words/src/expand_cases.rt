// Cases of `expand`. A line `dictionary HEX` gives a dictionary text; each line
// `expand HEX NODES WORD WORD ..` after it gives a message type, the nodes that the Rust's expansion
// spends and the words of its layout, or `expand HEX refused N P`.
use crate::dictionary_line::read_dictionary_line;
use crate::recorded_words::replay_numbers;
use expand::expand_call::expand;
use replay_lines::block::{Parts, is_part};
use replay_lines::cases::{ByteCases, Replayed, Unread};
use replay_lines::given::{Given, Refused, Written, is_refusal};
use replay_lines::recorded_values::{
    first_word, most_numbers, read_numbers_in, read_pairs, split_kind,
};
use replay_space::in_space::replay_refused;
use replay_space::space::make_space;

#[derive(Drop)]
pub struct ExpandCases<'a> {
    parts: Parts<'a>,
    numbers: &'a mut [u64],
    words: &'a mut [u32],
    space: &'a mut [u32],
}

// A message type has at most so many bytes.
const TYPE_BYTES: usize = 64;

// Every line but `dictionary` is replayed as a case, one that gives a part too.
impl ByteCases for ExpandCases<'_> {
    fn replay(&mut self, line: &[u8]) -> Result<Option<Replayed>, Unread> {
        let (kind, rest) = split_kind(line);
        if line.starts_with(b"d") {
            read_dictionary_line(rest, &mut self.parts)?;
        } else if is_part(line) {
            let most = most_numbers(self.numbers.len());
            self.parts.read_part_within(kind, rest, most)?;
        }
        let dictionary = self.parts.block()?.dictionary;
        if line.starts_with(b"d") {
            return Ok(None);
        }
        let replayed = replay_type(rest, dictionary, self.numbers, self.words, self.space)?;
        Ok(Some(replayed))
    }
}

impl<'a> ExpandCases<'a> {
    pub fn new(
        parts: Parts<'a>,
        numbers: &'a mut [u64],
        words: &'a mut [u32],
        space: &'a mut [u32],
    ) -> Self {
        Self {
            parts,
            numbers,
            words,
            space: make_space(space),
        }
    }
}

// The message type, then the answer that was recorded.
fn replay_type(
    case: &[u8],
    dictionary: &[u32],
    numbers: &mut [u64],
    words: &mut [u32],
    space: &mut [u32],
) -> Result<Replayed, Unread> {
    let (letters, answer) = first_word(case)?;
    let mut bytes = [0u8; TYPE_BYTES];
    let message_type = read_pairs(letters, &mut bytes)?;
    let expansion = |lent: &mut [u32]| expansion_given(dictionary, message_type, lent);
    if is_refusal(answer) {
        let refused = Refused::recorded(split_kind(answer).1);
        return Ok(replay_refused(expansion, refused, space));
    }
    let [nodes, recorded @ ..] = read_numbers_in(answer, numbers)? else {
        return Err(Unread::NoForm);
    };
    replay_numbers(expansion, *nodes as usize, recorded, words, space)
}

fn expansion_given(dictionary: &[u32], message_type: &[u8], space: &mut [u32]) -> Given {
    expand(dictionary, message_type, space).map(|expanded| Written {
        number: expanded.nodes,
        words: expanded.words,
    })
}
