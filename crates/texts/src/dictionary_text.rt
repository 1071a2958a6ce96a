// The dictionary text: what it defines, what is defined again, and its first faulty line.
ghost use Rattle.std.specs.Prelude.{◌≡◌, ◌≤◌};
ghost use Rattle.texts.specs.DictionaryText.{defined_by, counted, at_end, order_of, key_of, again_of, refused_earlier, first_of, dictionary_text_of};
ghost use Rattle.texts.specs.DictionaryTextLaws.{CountsWithin};

use dictionary_order::dictionary_order::{Part, Stage, State, take_line};
use line_forms::line::{Line, line_of};
use lines::text::Text;
use lines::text_lines::TextLines;
use refusals::refusal::Refusal;

// What a line defines.
#[derive(Clone, Copy)]
pub enum Defined {
    Tag(u32),
    ComponentName(u32),
    MessageName(u32),
}

pub fn defined_by(line: Line) -> Option<Defined>
    ensures { result ≡ defined_by line }
{
    match line {
        Line::Def(tag, _) => Some(Defined::Tag(tag)),
        Line::Component(name) => Some(Defined::ComponentName(name)),
        Line::Message(letters, _) => Some(Defined::MessageName(letters)),
        _ => None,
    }
}

// How many lines a text has, and how many of them define a tag, a component, a message type.
#[derive(Clone, Copy, Default)]
pub struct Counts {
    pub lines: u64,
    pub tags: u64,
    pub components: u64,
    pub messages: u64,
}

fn count(counts: Counts, defined: Option<Defined>) -> Counts
    requires { CountsWithin counts 65536 }
    ensures { result ≡ counted counts defined }
{
    let counts = Counts {
        lines: counts.lines + 1,
        ..counts
    };
    match defined {
        Some(Defined::Tag(_)) => Counts {
            tags: counts.tags + 1,
            ..counts
        },
        Some(Defined::ComponentName(_)) => Counts {
            components: counts.components + 1,
            ..counts
        },
        Some(Defined::MessageName(_)) => Counts {
            messages: counts.messages + 1,
            ..counts
        },
        None => counts,
    }
}

// What was counted, where the text may end here.
#[tactic(auto, unfolding(ascii::specs::Notation::is_between))]
pub fn at_end(state: State, counts: Counts) -> Result<Counts, Refusal>
    requires { counts.lines ≤ 65536 }
    ensures { result ≡ at_end state counts }
{
    match state.stage {
        Stage::AfterTrailer | Stage::AfterMessage => Ok(counts),
        _ => Err(Refusal::NotAllowed(counts.lines + 1)),
    }
}

// Reads the text from the top: refusals 2 to 4.
fn read_in_order(text: Text<'_>) -> Result<Counts, Refusal>
    ensures { result ≡ order_of text.entry.bytes.now }
{
    let mut state = State {
        stage: Stage::Beginning,
        part: Part::NoBody,
        name: 0,
        depth: 0,
        counts: [0; 40],
    };
    let mut counts = Counts::default();
    for line in TextLines::new(text.bytes) {
        let number = counts.lines + 1;
        let line = line_of(line.ok_or(Refusal::UnknownForm(number))?);
        state = take_line(state, number, line)?;
        counts = count(counts, defined_by(line));
    }
    at_end(state, counts)
}

fn key_of(defined: Option<Defined>) -> Option<u64>
    ensures { result ≡ key_of defined }
{
    match defined? {
        Defined::Tag(tag) => Some(tag as u64),
        Defined::ComponentName(name) => Some(0x1_0000_0000 + name as u64),
        Defined::MessageName(letters) => Some(0x2_0000_0000 + letters as u64),
    }
}

// Finds what is defined again: refusal 5. A line that defines something has at least five bytes,
// its line feed with it.
fn first_again(text: Text<'_>) -> Option<u64>
    ensures { result ≡ again_of text.entry.bytes.now }
{
    // the gate has no heap: room for as many keys as 65,536 bytes define
    let mut seen = [0u64; 13108];
    let mut known = 0;
    let mut number = 1;
    for line in TextLines::new(text.bytes) {
        let line = line_of(line?);
        if let Some(key) = key_of(defined_by(line)) {
            if seen[..known].contains(&key) {
                return Some(number);
            }
            seen[known] = key;
            known += 1;
        }
        number += 1;
    }
    None
}

fn refused_earlier(line: u64, refusal: Refusal) -> Result<Counts, Refusal>
    ensures { result ≡ refused_earlier line refusal }
{
    if line < refusal.place() {
        return Err(Refusal::DefinedAgain(line));
    }
    Err(refusal)
}

fn first_of(again: Option<u64>, outcome: Result<Counts, Refusal>) -> Result<Counts, Refusal>
    ensures { result ≡ first_of again outcome }
{
    let Some(line) = again else {
        return outcome;
    };
    match outcome {
        Ok(_) => Err(Refusal::DefinedAgain(line)),
        Err(refusal) => refused_earlier(line, refusal),
    }
}

// Reads a dictionary text: what it has, or its first faulty line.
pub fn check_dictionary_text(text: &[u8]) -> Result<Counts, Refusal>
    ensures outcome { result ≡ dictionary_text_of text.now }
{
    let text = Text::new(text).ok_or(Refusal::TextTooLong)?;
    let again = first_again(text);
    let outcome = read_in_order(text);
    first_of(again, outcome)
}
