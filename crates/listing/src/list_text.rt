// The text of the list, handed out line by line (document 01, 'One list in full').
ghost use Rattle.std.specs.Prelude.{◌≡◌, ◌+◌, ◌*◌, ◌≤◌, ◌<◌, length, Ok};
ghost use Rattle.std.proofs.lemmas.List.Edits.{sets};
ghost use Rattle.list_lines.specs.ListLinesLaws.{Put};
ghost use Rattle.listing.specs.ListTextLaws.{held-prop};
ghost use Rattle.listing.specs.ListText.{Held, words_line, line_count, full_line, line_at};

use list_lines::list_lines::{put_event_line, put_refused_line, put_type_line, put_verdict_line};
use message_text::message_type::Stretch;
use refusals::refusal::Refusal;

// What a list is made of: where the message's type stands in it, how many fields it has, and how many events were written.
#[derive(Clone, Copy)]
pub struct Shape {
    pub message_type: Stretch,
    pub fields: usize,
    pub events: usize,
}

// What a list is printed from: its shape or the first refusal, and the words that the calls wrote, which hold what the shape says.
#[derive(Clone, Copy)]
pub struct Listed<'a> {
    pub shape: Result<Shape, Refusal>,
    pub message: &'a [u8],
    pub events: &'a [u64],
    pub verdicts: &'a [u64],
    pub ghost held: { Held shape message.now events.now verdicts.now } by { held-prop shape message.now events.now verdicts.now },
}

impl Listed<'_> {
    // How many lines the list has.
    pub fn line_count(self) -> usize
        ensures { result ≡ line_count self.entry.shape }
    {
        match self.shape {
            Ok(shape) => shape.events + 2,
            Err(_) => 1,
        }
    }

    // Writes the line at `index` of the list, with its line feed, and gives the number of its bytes: none after the last line.
    // Any space of 65,570 bytes or more will do, so `out` is no array of that length.
    pub fn list_line(self, index: usize, out: &mut [u8]) -> usize
        requires in_bounds { 65570 ≤ length out.old }
        ensures outcome { result ≡ length (line_at self.entry.message.now self.entry.events.now self.entry.verdicts.now self.entry.shape index) }
        ensures memory { out.new ≡ sets out.old 0 (line_at self.entry.message.now self.entry.events.now self.entry.verdicts.now self.entry.shape index) }
        ensures within { result ≤ length out.new }
    {
        match self.shape {
            Ok(shape) => self.put_full_line(shape, index, out),
            Err(refusal) if index == 0 => put_refused_line(out, 0, refusal),
            Err(_) => 0,
        }
    }

    // Writes the line at `index` of a list that was not refused.
    fn put_full_line(self, shape: Shape, index: usize, out: &mut [u8]) -> usize
        requires full { self.shape ≡ Ok shape }
        requires in_bounds { 65570 ≤ length out.old }
        ensures { Put out.old out.new 0 result (full_line self.entry.message.now self.entry.events.now self.entry.verdicts.now shape index) }
    {
        if index == 0 {
            let Stretch { first, past } = shape.message_type;
            return put_type_line(out, 0, &self.message[first..past], shape.fields as u64);
        }
        if index <= shape.events {
            return put_words_line(out, self.events, index - 1);
        }
        if index == shape.events + 1 {
            return put_verdict_line(out, 0, &self.verdicts[..shape.fields]);
        }
        0
    }
}

// Writes the line of the event at `index`.
fn put_words_line(out: &mut [u8], events: &[u64], index: usize) -> usize
    requires in_bounds { 115 ≤ length out.old }
    requires index_in_bounds { 5 * index + 5 ≤ length events.now }
    ensures { Put out.old out.new 0 result (words_line events.now index) }
{
    let at = 5 * index;
    put_event_line(
        out,
        0,
        events[at],
        events[at + 1],
        events[at + 2],
        events[at + 3],
        events[at + 4],
    )
}
