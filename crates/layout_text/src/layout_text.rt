// The layout text: the order of its lines.
ghost use Rattle.std.specs.Prelude.{◌≡◌, ◌≤◌, ◌<◌, true, length, is_ok, Err, MatchResult};
ghost use Rattle.layout_text.specs.declared.layout_text.Part.TheVariants.{Members};
ghost use Rattle.layout_text.specs.LevelLines.{lines_at};
ghost use Rattle.layout_text.specs.AcceptedText.{in_order};
ghost use Rattle.layout_text.specs.LayoutText.{part_number, member_step, required_step, open_level, close_level, level_step_of, layout_end, layout_order_of, layout_text_of};

use line_forms::line::{Line, line_of};
use lines::text::Text;
use lines::text_lines::TextLines;
use refusals::refusal::Refusal;

// Which lines of the innermost open level were read last.
#[derive(Clone, Copy)]
pub enum Part {
    Members,
    Required,
    // a group block has closed
    Blocks,
    // what names no part: by how much its number is above 3. No member and no required tag is taken
    // there
    Other(u8),
}

// The part with this number.
impl From<u8> for Part {
    ghost from_gives = { λ number part. part_number part ≡ number };

    fn from(number: u8) -> Part {
        match number {
            0 => Part::Members,
            1 => Part::Required,
            2 => Part::Blocks,
            _ => Part::Other(number - 3),
        }
    }
}

// That at most 40 blocks are open is asked of a state and is no ghost field: `..state` takes none.
#[derive(Clone, Copy)]
pub struct LevelState {
    pub part: Part,
    // how many group blocks are open
    pub depth: usize,
    // their count tags, the outermost first; the gate has no heap, so there is room for 40
    pub counts: [u32; 40],
}

fn member_step(state: LevelState, number: u64) -> Result<LevelState, Refusal>
    ensures { result ≡ member_step state number }
{
    match state.part {
        Part::Members => Ok(state),
        _ => Err(Refusal::NotAllowed(number)),
    }
}

fn required_step(state: LevelState, number: u64) -> Result<LevelState, Refusal>
    ensures { result ≡ required_step state number }
{
    match state.part {
        Part::Members | Part::Required => Ok(LevelState {
            part: Part::Required,
            ..state
        }),
        _ => Err(Refusal::NotAllowed(number)),
    }
}

fn open_level(state: LevelState, number: u64, count: u32) -> Result<LevelState, Refusal>
    ensures { result ≡ open_level count state number }
{
    let depth = state.depth;
    if depth < 40 {
        let mut counts = state.counts;
        counts[depth] = count;
        return Ok(LevelState {
            part: Part::Members,
            depth: depth + 1,
            counts,
        });
    }
    Err(Refusal::TooManyOpen(number))
}

fn close_level(state: LevelState, number: u64, count: u32) -> Result<LevelState, Refusal>
    requires { state.depth ≤ 40 }
    ensures { result ≡ close_level count state number }
{
    if state.depth == 0 {
        return Err(Refusal::NotAllowed(number));
    }
    let depth = state.depth - 1;
    if count == state.counts[depth] {
        return Ok(LevelState {
            part: Part::Blocks,
            depth,
            ..state
        });
    }
    Err(Refusal::NotAllowed(number))
}

// What the line of this number does in this state. Of the end lines a layout text knows only end=COUNT.
pub fn take_level_line(state: LevelState, number: u64, line: Line) -> Result<LevelState, Refusal>
    requires { state.depth ≤ 40 }
    ensures { result ≡ level_step_of state number line }
{
    match line {
        Line::Member(_) => member_step(state, number),
        Line::RequiredTag(_) => required_step(state, number),
        Line::Group(count, _, _) => open_level(state, number, count),
        Line::End(name, _) => {
            let count = name.ok_or(Refusal::UnknownForm(number))?;
            close_level(state, number, count)
        }
        _ => Err(Refusal::UnknownForm(number)),
    }
}

fn at_layout_end(state: LevelState, lines: u64) -> Result<u64, Refusal>
    requires { lines ≤ 65536 }
    ensures { result ≡ layout_end state lines }
{
    if state.depth == 0 {
        return Ok(lines);
    }
    Err(Refusal::NotAllowed(lines + 1))
}

// Reads the text from the top: refusals 2 to 4.
fn read_levels(text: Text<'_>) -> Result<u64, Refusal>
    ensures { result ≡ layout_order_of text.entry.bytes.now }
{
    let mut state = LevelState {
        part: Part::Members,
        depth: 0,
        counts: [0; 40],
    };
    let mut lines = 0;
    for line in TextLines::new(text.bytes) {
        let number = lines + 1;
        let line = line.ok_or(Refusal::UnknownForm(number))?;
        state = take_level_line(state, number, line_of(line))?;
        lines = number;
    }
    at_layout_end(state, lines)
}

// Reads a layout text: how many lines it has, or its first faulty line.
pub fn check_layout_text(text: &[u8]) -> Result<u64, Refusal>
    ensures outcome { result ≡ layout_text_of text.now }
{
    let text = Text::new(text).ok_or(Refusal::TextTooLong)?;
    read_levels(text)
}

// A text whose lines are in the order of a layout text's: a function which is given it asks nothing
// of its length or of its lines.
#[derive(Clone, Copy)]
pub struct LayoutText<'a> {
    pub text: Text<'a>,
    pub ghost ordered: { in_order Members 0 (lines_at text.bytes.now 0) ≡ true },
}

impl<'a> LayoutText<'a> {
    // The layout text that these bytes are, or its first faulty line.
    pub fn new(bytes: &'a [u8]) -> Result<Self, Refusal>
        ensures outcome { MatchResult result
            (λ layout. (layout.text.bytes.now ≡ bytes.now) × (is_ok (layout_text_of bytes.now) ≡ true))
            (λ refusal. layout_text_of bytes.now ≡ Err refusal) }
    {
        check_layout_text(bytes)?;
        Ok(LayoutText {
            text: Text { bytes },
        })
    }
}
