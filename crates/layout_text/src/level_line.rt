// The lines of a layout text, one at a time.
ghost use Rattle.std.specs.Prelude.{◌≡◌, ◌-◌, length};
ghost use Rattle.std.specs.Iterator.{at_most};
ghost use Rattle.layout_text.specs.LevelLines.{level_line_of, GivesLevelLine};

use line_forms::line::{Line, line_of};
use lines::text_lines::TextLines;

// A line of a layout text: what it adds to the innermost open level, opens or closes.
#[derive(Clone, Copy)]
pub enum LevelLine {
    // member=TAG
    MemberLine(u32),
    // required=TAG
    RequiredLine(u32),
    // group=COUNT,DELIMITER,R
    GroupLine(u32, u32, bool),
    // end=COUNT
    EndLine,
    // a line of no form known to a layout text: the lines are told of any text, and an accepted one has none
    OtherLine,
}

// What a line is to a layout text. Of the end lines it knows only end=COUNT.
fn level_line(line: Line) -> LevelLine
    ensures { result ≡ level_line_of line }
{
    match line {
        Line::Member(tag) => LevelLine::MemberLine(tag),
        Line::RequiredTag(tag) => LevelLine::RequiredLine(tag),
        Line::Group(count, delimiter, required) => LevelLine::GroupLine(count, delimiter, required),
        Line::End(name, _) => {
            if name.is_some() {
                LevelLine::EndLine
            } else {
                LevelLine::OtherLine
            }
        }
        _ => LevelLine::OtherLine,
    }
}

// An iterator over the lines of a layout text from the byte `first` on.
#[derive(Clone, Copy)]
pub struct LevelLines<'a> {
    text: &'a [u8],
    first: usize,
}

impl<'a> LevelLines<'a> {
    pub fn new(text: &'a [u8], first: usize) -> LevelLines<'a>
        ensures text { result.text.now ≡ text.now }
        ensures first { result.first ≡ first }
    {
        LevelLines { text, first }
    }

    // Where the next line begins.
    pub fn place(&self) -> usize
        ensures { result ≡ self.now.first }
    {
        self.first
    }
}

impl<'a> Iterator for LevelLines<'a> {
    type Item = LevelLine;

    ghost next_gives = { λ lines given left. (left.text.now ≡ lines.text.now) × GivesLevelLine lines.text.now lines.first given left.first };

    ghost remaining = { λ lines. at_most (length lines.text.now - lines.first) };

    fn next(&mut self) -> Option<LevelLine> {
        let mut lines = TextLines::new(self.text.get(self.first..)?);
        let given = lines.next()?;
        self.first = self.text.len() - lines.rest().len();
        match given {
            Some(bytes) => Some(level_line(line_of(bytes))),
            None => Some(LevelLine::OtherLine),
        }
    }
}
