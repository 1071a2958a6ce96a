// What cases run on: lines before them give the words of a dictionary, of a layout and of a field
// table, and the bytes of a message. The words stand in one lent array, those of each kind at a
// place of their own.
ghost use Rattle.std.specs.Prelude.{◌≡◌, ◌≤◌, IfOk, IfSome, codes, take};

use crate::cases::Unread;
use crate::recorded_values::{read_numbers_in, read_pairs};

// The room that the parts of a block are lent, and how many words or bytes the lines so far give;
// None where their line is of no known form.
#[derive(Drop)]
pub struct Parts<'a> {
    // the words of a dictionary, then those of a layout, then those of a field table
    pub words: &'a mut [u32],
    pub bytes: &'a mut [u8],
    pub dictionary: Option<usize>,
    pub layout: Option<usize>,
    pub fields: Option<usize>,
    pub message: Option<usize>,
}

// What a case runs on.
#[derive(Clone, Copy)]
pub struct Block<'a> {
    pub dictionary: &'a [u32],
    pub layout: &'a [u32],
    pub fields: &'a [u32],
    pub message: &'a [u8],
}

// The most words of a dictionary.
pub const DICTIONARY_WORDS: usize = 65536;

// The most words of a layout or of a field table.
pub const OTHER_WORDS: usize = 16384;

// Where the words of a layout end, and those of a field table begin.
const LAYOUT_PAST: usize = DICTIONARY_WORDS + OTHER_WORDS;

// The most words of all three.
pub const BLOCK_WORDS: usize = LAYOUT_PAST + OTHER_WORDS;

impl<'a> Parts<'a> {
    // No words and no bytes.
    pub fn new(words: &'a mut [u32], bytes: &'a mut [u8]) -> Self {
        Self {
            words,
            bytes,
            dictionary: Some(0),
            layout: Some(0),
            fields: Some(0),
            message: Some(0),
        }
    }

    // Takes what a line gives whose first word begins as `dictionary`, `layout`, `fields` or
    // `message`.
    pub fn read_part(&mut self, kind: &[u8], text: &[u8]) -> Result<(), Unread> {
        self.read_part_within(kind, text, DICTIONARY_WORDS)
    }

    // The same, where a line has at most so many words; a message has any number of bytes.
    pub fn read_part_within(&mut self, kind: &[u8], text: &[u8], most: usize) -> Result<(), Unread>
        ensures dictionary { take 1 kind.now ≡ codes "d" →
            IfOk result (λ _. IfSome self.new.dictionary (λ words. words ≤ most)) }
        ensures layout { take 1 kind.now ≡ codes "l" →
            IfOk result (λ _. IfSome self.new.layout (λ words. words ≤ most)) }
        ensures fields { take 1 kind.now ≡ codes "f" →
            IfOk result (λ _. IfSome self.new.fields (λ words. words ≤ most)) }
    {
        let words = &mut *self.words;
        // None first: a line of no known form leaves none of the part before it
        match kind.first() {
            Some(b'd') => {
                self.dictionary = None;
                self.dictionary = Some(put_words(text, words, 0, DICTIONARY_WORDS, most)?);
            }
            Some(b'l') => {
                self.layout = None;
                self.layout = Some(put_words(text, words, DICTIONARY_WORDS, LAYOUT_PAST, most)?);
            }
            Some(b'f') => {
                self.fields = None;
                self.fields = Some(put_words(text, words, LAYOUT_PAST, BLOCK_WORDS, most)?);
            }
            Some(b'm') => {
                self.message = None;
                self.message = Some(read_pairs(text, self.bytes)?.len());
            }
            _ => return Err(Unread::NoForm),
        }
        Ok(())
    }

    // The block, where the lines of all its parts are of a known form.
    pub fn block(&self) -> Result<Block<'_>, Unread> {
        Ok(Block {
            dictionary: slice_of(self.words, 0, self.dictionary)?,
            layout: slice_of(self.words, DICTIONARY_WORDS, self.layout)?,
            fields: slice_of(self.words, LAYOUT_PAST, self.fields)?,
            message: slice_of(self.bytes, 0, self.message)?,
        })
    }
}

// Whether the line gives a part.
pub fn is_part(line: &[u8]) -> bool {
    matches!(line.first(), Some(b'd' | b'l' | b'f' | b'm'))
}

// Puts the words that the text gives, at most so many, from `first` on up to before `past`: how many
// there are.
fn put_words(
    text: &[u8],
    words: &mut [u32],
    first: usize,
    past: usize,
    most: usize,
) -> Result<usize, Unread>
    ensures { IfOk result (λ count. count ≤ most) }
{
    let room = words.get_mut(first..past).ok_or(Unread::NoForm)?;
    let most = room.len().min(most);
    Ok(read_numbers_in::<u32>(text, &mut room[..most])?.len())
}

// So many of the room from `first` on.
fn slice_of<T>(room: &[T], first: usize, size: Option<usize>) -> Result<&[T], Unread> {
    let size = size.ok_or(Unread::NoForm)?;
    let part = room.get(first..).and_then(|part| part.get(..size));
    part.ok_or(Unread::NoForm)
}
