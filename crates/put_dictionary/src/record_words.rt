// The record of a line, written into the words of a dictionary.
ghost use Rattle.std.specs.Prelude.{◌≡◌, ◌+◌, ◌≤◌, length};
ghost use Rattle.std.proofs.lemmas.List.Edits.{sets};
ghost use Rattle.records.specs.RecordKind.{kind_number};
ghost use Rattle.records.specs.Records.{record4, value_record, end_record, record_of};

use line_forms::line::Line;
use lines::line_parts::Admitted;
use records::record_kind::RecordKind;
use records::records::{RECORD, Record};

// A kind and three words, and 0 in the six words after them.
fn record4(kind: RecordKind, first: u32, second: u32, third: u32) -> Record
    ensures { result ≡ record4 (kind_number kind) first second third }
{
    [u32::from(kind), first, second, third, 0, 0, 0, 0, 0, 0]
}

fn value_record(value: Admitted) -> Record
    ensures { result ≡ value_record value }
{
    [
        u32::from(RecordKind::Value),
        value.len,
        value.word0,
        value.word1,
        value.word2,
        value.word3,
        value.word4,
        value.word5,
        value.word6,
        value.word7,
    ]
}

fn end_record(number: Option<u32>, letters: Option<u32>) -> Record
    ensures { result ≡ end_record number letters }
{
    match (letters, number) {
        (Some(name), _) => record4(RecordKind::EndLetters, name, 0, 0),
        (None, Some(name)) => record4(RecordKind::EndNumber, name, 0, 0),
        (None, None) => [0; RECORD],
    }
}

// The record of the line: 0 in each word for a line that no dictionary has.
#[tactic(auto, unfolding(records::specs::Records::record_of))]
pub fn record_of(line: Line) -> Record
    ensures { result ≡ record_of line }
{
    match line {
        Line::Def(tag, place) => record4(RecordKind::Def, tag, place, 0),
        Line::Value(value) => value_record(value),
        Line::BeginHeader => record4(RecordKind::BeginHeader, 0, 0, 0),
        Line::BeginTrailer => record4(RecordKind::BeginTrailer, 0, 0, 0),
        Line::EndHeader => record4(RecordKind::EndHeader, 0, 0, 0),
        Line::EndTrailer => record4(RecordKind::EndTrailer, 0, 0, 0),
        Line::Component(name) => record4(RecordKind::Component, name, 0, 0),
        Line::Message(letters, app) => record4(RecordKind::Message, letters, u32::from(app), 0),
        Line::Field(tag, required) => record4(RecordKind::Field, tag, u32::from(required), 0),
        Line::Group(count, delimiter, required) => {
            record4(RecordKind::Group, count, delimiter, u32::from(required))
        }
        Line::Use(name, required) => record4(RecordKind::Use, name, u32::from(required), 0),
        Line::End(number, letters) => end_record(number, letters),
        Line::Member(_) | Line::RequiredTag(_) | Line::Unknown => [0; RECORD],
    }
}

// Writes the record of the line at this place.
pub fn put_record(words: &mut [u32], at: usize, line: Line)
    requires { at + 10 ≤ length words.old }
    ensures { words.new ≡ sets words.old at (record_of line) }
{
    words[at..at + RECORD].copy_from_slice(&record_of(line));
}
