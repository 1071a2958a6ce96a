// The message text: one tag=value line a field (document 01, 'One list in full').
ghost use Rattle.std.specs.Prelude.{◌≡◌, [], ◌∷◌, ◌+◌, ◌*◌, ◌≤◌, ◌<◌, ◌^◌, length, Ok};
ghost use Rattle.std.proofs.lemmas.List.Edits.{sets};
ghost use Rattle.lines.specs.Lines.{lines_of};
ghost use Rattle.message_text.specs.MessageText.{field_line_of, count_from, table_of, space_answer, space_with, read_message_of, fields_in};

use lines::line_parts::parse_number;
use lines::lines::position;
use lines::text::Text;
use lines::text_lines::TextLines;
use refusals::refusal::Refusal;

// The tag of a line and where its value begins: a line is the tag, the first `=`, and all after it.
fn field_line(line: &[u8]) -> Option<(u32, usize)>
    ensures { result ≡ field_line_of line.now }
{
    let place = position(line, b'=')?;
    let tag = parse_number(&line[..place])?;
    Some((tag, place + 1))
}

// How many fields a text has, or its first line of another form.
fn count_fields(text: Text<'_>) -> Result<usize, Refusal>
    ensures { result ≡ count_from 0 (lines_of text.entry.bytes.now) }
{
    let mut count: usize = 0;
    for line in TextLines::new(text.bytes) {
        let number = count as u64 + 1;
        line.and_then(field_line)
            .ok_or(Refusal::UnknownForm(number))?;
        count += 1;
    }
    Ok(count)
}

// Writes the three words of a field.
fn put_row(fields: &mut [u32], at: usize, tag: u32, first: usize, past: usize)
    requires at_in_bounds { at + 3 ≤ length fields.old }
    requires first_bound { (first < 2 ^ 32) × (past < 2 ^ 32) }
    ensures { fields.new ≡ sets fields.old at (tag ∷ first ∷ past ∷ []) }
{
    fields[at..at + 3].copy_from_slice(&[tag, first as u32, past as u32]);
}

// Writes the field table of the text.
fn put_fields(text: Text<'_>, fields: &mut [u32])
    requires { length (table_of text.bytes.now) ≤ length fields.old }
    ensures { fields.new ≡ sets fields.old 0 (table_of text.entry.bytes.now) }
{
    let mut at: usize = 0;
    let mut first: usize = 0;
    for line in TextLines::new(text.bytes) {
        let Some(line) = line else {
            return;
        };
        let Some((tag, value)) = field_line(line) else {
            return;
        };
        let past = first + line.len();
        put_row(fields, at, tag, first + value, past);
        at += 3;
        first = past + 1;
    }
}

// Writes the field table of a text of so many fields where the words are enough.
fn write_fields(text: Text<'_>, count: usize, fields: &mut [u32]) -> Result<usize, Refusal>
    requires { count_from 0 (lines_of text.bytes.now) ≡ Ok count }
    ensures outcome { result ≡ space_answer (Ok count) (length fields.old) }
    ensures memory { fields.new ≡ space_with (Ok count) (table_of text.entry.bytes.now) fields.old }
{
    let needed = 3 * count;
    if fields.len() < needed {
        return Err(Refusal::SpaceShort(needed as u64));
    }
    put_fields(text, fields);
    Ok(count)
}

// Reads a message text and writes its field table over the text itself: how many fields it has, or the refusal of the text, or else that the words are too few.
pub fn read_message(text: &[u8], fields: &mut [u32]) -> Result<usize, Refusal>
    ensures outcome { result ≡ read_message_of text.now (length fields.old) }
    ensures memory { fields.new ≡ fields_in text.now fields.old }
{
    let text = Text::new(text).ok_or(Refusal::TextTooLong)?;
    let count = count_fields(text)?;
    write_fields(text, count, fields)
}
