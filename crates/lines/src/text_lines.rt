// The lines of a text, one after the other.
ghost use Rattle.std.specs.Prelude.{◌≡◌, length};
ghost use Rattle.std.specs.Iterator.{at_most};
ghost use Rattle.lines.specs.TextLines.{GivesLine};

use crate::lines::position;

// An iterator over the lines of a text, each without its line feed; None for the bytes after the last line feed.
#[derive(Clone, Copy)]
pub struct TextLines<'a> {
    rest: &'a [u8],
}

impl<'a> TextLines<'a> {
    pub fn new(text: &'a [u8]) -> TextLines<'a>
        ensures { result.rest.now ≡ text.now }
    {
        TextLines { rest: text }
    }

    // The bytes that are left.
    pub fn rest(&self) -> &'a [u8]
        ensures { result.now ≡ self.now.rest.now }
    {
        self.rest
    }
}

impl<'a> Iterator for TextLines<'a> {
    type Item = Option<&'a [u8]>;

    ghost next_gives = { λ lines given left. GivesLine lines.rest.now given left.rest.now };

    ghost remaining = { λ lines. at_most (length lines.rest.now) };

    fn next(&mut self) -> Option<Option<&'a [u8]>> {
        let text = self.rest;
        if text.is_empty() {
            return None;
        }
        let Some(past) = position(text, b'\n') else {
            self.rest = &text[text.len()..];
            return Some(None);
        };
        self.rest = &text[past + 1..];
        Some(Some(&text[..past]))
    }
}
