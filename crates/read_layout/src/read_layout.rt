// Reading a hand-made layout text into layout words.
ghost use Rattle.std.specs.Prelude.{◌≡◌, length};
ghost use Rattle.layouts.specs.LayoutWords.{arranged};
ghost use Rattle.layout_text.specs.LayoutOfText.{layout_of};
ghost use Rattle.read_layout.specs.ReadLayout.{space_outcome, layout_outcome, read_outcome, written_in, read_words};
ghost use Rattle.read_layout.specs.ReadLayoutLaws.{Writable};

use layout_parts::layout_parts::{Parts, count_parts, gather_layout};
use layout_rules::layout_rules::first_broken;
use layout_text::layout_text::LayoutText;
use layouts::put_layout::put_layout;
use refusals::refusal::Refusal;

// Document 01: "members of all levels may number 8,192 and the entries of all required lists 2,048".
const MEMBERS: usize = 8192;

const REQUIRED: usize = 2048;

// Writes the words of the layout if there is room for them. A text of 65,536 bytes has at most 5,461 blocks.
fn write_layout(layout: LayoutText<'_>, words: &mut [u32], parts: Parts) -> Result<usize, Refusal>
    requires { Writable layout.text.bytes.now parts }
    ensures outcome { result ≡ space_outcome (length (arranged (layout_of layout.entry.text.bytes.now))) (length words.old) }
    ensures memory { words.new ≡ written_in result (layout_of layout.entry.text.bytes.now) words.old }
{
    let needed = 7 + 6 * parts.groups + parts.members + parts.required;
    if words.len() < needed {
        return Err(Refusal::SpaceShort(needed as u64));
    }
    // no heap: room for the largest layout
    let mut members = [0u32; MEMBERS];
    let mut required = [0u32; REQUIRED];
    let mut rows = [0u32; 32772];
    let mut starts = [0u32; 5461];
    let gathered = gather_layout(
        layout.text,
        &mut members,
        &mut required,
        &mut rows,
        &mut starts,
    );
    put_layout(
        words,
        gathered.groups,
        &members[0..gathered.members],
        &required[0..gathered.required],
        &rows[0..6 * (gathered.groups + 1)],
    );
    Ok(needed)
}

// Reads a text whose lines are in order.
fn read_ordered(layout: LayoutText<'_>, words: &mut [u32]) -> Result<usize, Refusal>
    ensures outcome { result ≡ layout_outcome (layout_of layout.entry.text.bytes.now) (length words.old) }
    ensures memory { words.new ≡ written_in result (layout_of layout.entry.text.bytes.now) words.old }
{
    let parts = count_parts(layout);
    if MEMBERS < parts.members || REQUIRED < parts.required {
        return Err(Refusal::MembersOver);
    }
    if let Some((rule, tag)) = first_broken(layout) {
        return Err(Refusal::RuleBroken(rule, tag));
    }
    write_layout(layout, words, parts)
}

// Reads a hand-made layout text: writes the words of its layout and gives their number, or refuses and writes nothing. After the words of the
// layout everything stays as it was.
pub fn read_layout(text: &[u8], words: &mut [u32]) -> Result<usize, Refusal>
    ensures outcome { result ≡ read_outcome text.now (length words.old) }
    ensures memory { words.new ≡ read_words text.now words.old }
{
    let layout = LayoutText::new(text)?;
    read_ordered(layout, words)
}
