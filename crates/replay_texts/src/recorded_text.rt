// Texts in the recorded lists: their bytes in hexadecimal, or pieces `@N HEX`: the bytes N times,
// one after the other.
use counts::count::parse_count;
use replay_lines::cases::Unread;
use replay_lines::recorded_values::{first_word, read_pairs, split_kind};

// A text has at most so many bytes: those that the program lends room for.
pub const TEXT_BYTES: usize = 140000;

// The text that the last line began with, at the start of lent room; None where its bytes are of no
// known form or there is no room for them. A line `words` belongs to the text above it.
#[derive(Drop)]
pub struct TextAbove<'a> {
    room: &'a mut [u8],
    size: Option<usize>,
}

impl<'a> TextAbove<'a> {
    pub fn new(room: &'a mut [u8]) -> Self {
        Self {
            room,
            size: Some(0),
        }
    }

    // The text that the line belongs to, and what follows it and a space.
    pub fn read<'l>(&mut self, line: &'l [u8]) -> Result<(&[u8], &'l [u8]), Unread> {
        let rest = if line.starts_with(b"w") {
            split_kind(line).1
        } else {
            // a line that begins with no text at all leaves one of no bytes
            self.size = Some(0);
            let (text, rest) = read_text(line, self.room)?;
            self.size = text.map(|text| text.len());
            rest
        };
        let size = self.size.ok_or(Unread::NoForm)?;
        let text = self.room.get(..size).ok_or(Unread::NoForm)?;
        Ok((text, rest))
    }
}

// The text that the line begins with, put at the start of the room, None where its bytes are of no
// known form or there is no room for them; and what follows it and a space.
pub fn read_text<'a, 'l>(
    line: &'l [u8],
    room: &'a mut [u8],
) -> Result<(Option<&'a [u8]>, &'l [u8]), Unread> {
    if line.starts_with(b"@") {
        let (size, rest) = read_pieces(line, room)?;
        let text = size.and_then(|size| room.get(..size));
        return Ok((text, rest));
    }
    let (bytes, rest) = first_word(line)?;
    Ok((read_pairs(bytes, room).ok(), rest))
}

// Puts the pieces that the line begins with at the start of the room, one after the other: how many
// bytes they are. After one of no known form there is to be no other.
fn read_pieces<'l>(line: &'l [u8], room: &mut [u8]) -> Result<(Option<usize>, &'l [u8]), Unread> {
    let mut size = Some(0);
    let mut rest = line;
    // a proved loop has to end: a line has fewer pieces than bytes
    for _ in 0..line.len() {
        let Some(piece) = rest.strip_prefix(b"@") else {
            return Ok((size, rest));
        };
        let (times, piece) = first_word(piece)?;
        let (bytes, next) = first_word(piece)?;
        let times = parse_count(times).ok_or(Unread::NoForm)?;
        let before = size.ok_or(Unread::NoForm)?;
        size = repeated(bytes, times, room, before);
        rest = next;
    }
    Ok((size, rest))
}

// Puts the bytes so many times after the first `before` bytes of the room, and answers where they
// end; None where they are of no known form or there is no room for them.
fn repeated(bytes: &[u8], times: u64, room: &mut [u8], before: usize) -> Option<usize> {
    if times == 0 {
        return Some(before);
    }
    let len = read_pairs(bytes, room.get_mut(before..)?).ok()?.len();
    if len == 0 {
        return Some(before);
    }
    let mut past = before + len;
    for _ in 1..times {
        if room.len() - past < len {
            return None;
        }
        room.copy_within(before..before + len, past);
        past += len;
    }
    Some(past)
}
