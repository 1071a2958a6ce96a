// A line of a body, read from its record: words that passed their check need no second one.
ghost use Rattle.std.specs.Prelude.{◌≡◌, ◌<◌, get_or};
ghost use Rattle.definitions.specs.Definitions.{line_numbered};
ghost use Rattle.bodies.specs.BodyLines.{read_from, Tells};

use dictionary::dictionary::Dictionary;
use records::record_kind::RecordKind;
use records::records::RECORD;

// A field, a group or a use: a line of a body.
#[derive(Clone, Copy)]
pub enum BodyLine {
    // TAG, R
    Field(u32, bool),
    // COUNT, DELIMITER, R
    Group(u32, u32, bool),
    // N, R
    Use(u32, bool),
}

fn line_from(words: &[u32; RECORD]) -> Option<BodyLine>
    ensures { result ≡ read_from words.now }
{
    let kind = words[0];
    // no match on the kind: what its last arm knows, that the kind is none of these, reaches no proof
    if kind == u32::from(RecordKind::Field) {
        Some(BodyLine::Field(words[1], words[2] == 1))
    } else if kind == u32::from(RecordKind::Group) {
        Some(BodyLine::Group(words[1], words[2], words[3] == 1))
    } else if kind == u32::from(RecordKind::Use) {
        Some(BodyLine::Use(words[1], words[2] == 1))
    } else {
        None
    }
}

// The line of the record with this number, if it is one of a body; any other line ends the body.
pub fn body_line(dictionary: Dictionary<'_>, number: usize) -> Option<BodyLine>
    requires { number < get_or dictionary.words.now 0 0 }
    ensures { Tells result (line_numbered dictionary.entry.words.now number) }
{
    line_from(&dictionary.records()[number])
}
