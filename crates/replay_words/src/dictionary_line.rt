// The words of a dictionary, and a dictionary that a line gives as a text in hexadecimal.
use read_dictionary::read_dictionary::read_dictionary;
use replay_lines::block::{DICTIONARY_WORDS, Parts};
use replay_lines::cases::Unread;
use replay_lines::given::{Given, Written};
use replay_lines::recorded_values::read_pairs;

pub fn dictionary_given(text: &[u8], space: &mut [u32]) -> Given {
    read_dictionary(text, space).map(Written::from)
}

// Reads the dictionary text that the line gives into the parts: no words where it is refused. The
// words that a dictionary has no room for are written over those of the layout and of the field
// table, which stand after it. No message is left: its bytes were the text's.
pub fn read_dictionary_line(line: &[u8], parts: &mut Parts<'_>) -> Result<(), Unread> {
    parts.message = Some(0);
    parts.dictionary = None;
    let text = read_pairs(line, parts.bytes)?;
    let words = match dictionary_given(text, parts.words) {
        Ok(written) => written.words,
        Err(_) => 0,
    };
    if DICTIONARY_WORDS < words {
        return Err(Unread::NoForm);
    }
    parts.dictionary = Some(words);
    Ok(())
}
