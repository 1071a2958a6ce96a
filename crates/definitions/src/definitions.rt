// What a dictionary defines, looked up in its words.
ghost use Rattle.std.specs.Prelude.{◌≡◌, true, ◌+◌, ◌*◌, ◌≤◌, ◌<◌, length, get_or};
ghost use Rattle.dictionary.specs.DictionaryCheck.{is_index, messages_at};
ghost use Rattle.definitions.specs.Definitions.{record_in, definition_of, component_of, message_of, is_same_value, is_among, is_enumerated, admits_value};
ghost use Rattle.definitions.specs.DefinitionsLaws.{Below};
ghost use Rattle.definitions.specs.AdmittedRecords.{is_value, is_among_records, records_behind};
ghost use Rattle.records.specs.RecordKind.{kind_number};
ghost use Rattle.records.specs.Records.{admitted_from};

use ascending::search::binary_search;
use dictionary::dictionary::Dictionary;
use lines::line_parts::{Admitted, parse_message_type, parse_value};
use records::record_kind::RecordKind;
use records::records::RECORD;

// The definition of a tag: the place of its TYPE among the names of FieldType, and the number of its
// record; its admitted values are the records after it.
#[derive(Clone, Copy)]
pub struct Definition {
    pub type_place: u32,
    pub number: usize,
}

// The number of the record that the index at this place gives the name.
fn record_in(words: &[u32], kind: RecordKind, at: usize, count: usize, name: u32) -> Option<usize>
    requires { (at + 2 * count ≤ length words.now) × (is_index (kind_number kind) at count words.now ≡ true) }
    ensures found { result ≡ record_in at count name words.now }
    ensures inside { Below (get_or words.now 0 0) result }
{
    let past = at + count;
    let rank = binary_search(&words[at..past], name)?;
    Some(words[past + rank] as usize)
}

// The definition of the tag.
pub fn definition_of(dictionary: Dictionary<'_>, tag: u32) -> Option<Definition>
    ensures { result ≡ definition_of dictionary.entry.words.now tag }
{
    let words = dictionary.words;
    let lines = words[0] as usize;
    let count = words[1] as usize;
    let at = 4 + 10 * lines;
    let number = record_in(words, RecordKind::Def, at, count, tag)?;
    Some(Definition {
        type_place: dictionary.records()[number][2],
        number,
    })
}

// The number of the record of component N.
pub fn component_of(dictionary: Dictionary<'_>, name: u32) -> Option<usize>
    ensures found { result ≡ component_of dictionary.entry.words.now name }
    ensures inside { Below (get_or dictionary.entry.words.now 0 0) result }
{
    let words = dictionary.words;
    let lines = words[0] as usize;
    let tags = words[1] as usize;
    let count = words[2] as usize;
    let at = 4 + 10 * lines + 2 * tags;
    record_in(words, RecordKind::Component, at, count, name)
}

// The number of the record of the message whose type is these letters.
fn message_named(dictionary: Dictionary<'_>, letters: u32) -> Option<usize>
    ensures found { result ≡ record_in (messages_at dictionary.entry.words.now) (get_or dictionary.entry.words.now 3 0) letters dictionary.entry.words.now }
    ensures inside { Below (get_or dictionary.entry.words.now 0 0) result }
{
    let words = dictionary.words;
    let lines = words[0] as usize;
    let tags = words[1] as usize;
    let components = words[2] as usize;
    let count = words[3] as usize;
    let at = 4 + 10 * lines + 2 * tags + 2 * components;
    record_in(words, RecordKind::Message, at, count, letters)
}

// The number of the record of the message of this type.
pub fn message_of(dictionary: Dictionary<'_>, value: &[u8]) -> Option<usize>
    ensures found { result ≡ message_of dictionary.entry.words.now value.now }
    ensures inside { Below (get_or dictionary.entry.words.now 0 0) result }
{
    let letters = parse_message_type(value)?;
    message_named(dictionary, letters)
}

// The record is that of a `value=V` line.
fn is_value(words: &[u32; RECORD]) -> bool
    ensures { result ≡ is_value words.now }
{
    words[0] == u32::from(RecordKind::Value)
}

// The value is that of the record. Most records differ from it in their first words, and no other is read.
// word by word: `==` of the slices took 1.4 times the instructions of a message's verdicts
fn is_same_value(words: &[u32; RECORD], value: Admitted) -> bool
    ensures { result ≡ is_same_value (admitted_from words.now) value }
{
    if words[1] != value.len {
        return false;
    }
    if words[2] != value.word0 {
        return false;
    }
    if words[3] != value.word1 {
        return false;
    }
    if words[4] != value.word2 {
        return false;
    }
    if words[5] != value.word3 {
        return false;
    }
    if words[6] != value.word4 {
        return false;
    }
    if words[7] != value.word5 {
        return false;
    }
    if words[8] != value.word6 {
        return false;
    }
    words[9] == value.word7
}

// The value is among those that the first records admit.
fn is_among(records: &[[u32; RECORD]], value: Admitted) -> bool
    ensures { result ≡ is_among_records value records.now }
{
    // no take_while and any: with them the verdicts on 2,002 fields took 6 % more instructions
    for record in records {
        if !is_value(record) {
            return false;
        }
        if is_same_value(record, value) {
            return true;
        }
    }
    false
}

// The records after the definition with this number; none where there is no such definition.
fn records_behind<'a>(dictionary: Dictionary<'a>, number: usize) -> &'a [[u32; RECORD]]
    ensures { result.now ≡ records_behind dictionary.entry.words.now number }
{
    match dictionary.records().get(number..) {
        Some([_, behind @ ..]) => behind,
        _ => &[],
    }
}

// The definition with this record has admitted values: a `value=V` line stands behind it.
pub fn is_enumerated(dictionary: Dictionary<'_>, number: usize) -> bool
    ensures { result ≡ is_enumerated dictionary.entry.words.now number }
{
    match records_behind(dictionary, number) {
        [first, ..] => is_value(first),
        [] => false,
    }
}

// The definition with this record admits the value: it has no admitted values, or the value is one of them.
pub fn admits(dictionary: Dictionary<'_>, number: usize, value: &[u8]) -> bool
    ensures { result ≡ admits_value dictionary.entry.words.now number value.now }
{
    if !is_enumerated(dictionary, number) {
        return true;
    }
    match parse_value(value) {
        Some(admitted) => is_among(records_behind(dictionary, number), admitted),
        None => false,
    }
}
