// The check of lent words: whether they begin with the arrangement of an accepted dictionary.
ghost use Rattle.std.specs.Prelude.{◌≡◌, ℕ, ◌&&◌, ◌+◌, ◌*◌, ◌≤◌, List, length, get_or, take, drop, is_some, IfSome};
ghost use Rattle.ascending.specs.Search.{is_strictly_ascending};
ghost use Rattle.dictionary_order.specs.DictionaryOrder.{start, may_end};
ghost use Rattle.dictionary.specs.DictionaryCheck.{accepts, count_of, stands_at, stands_each, is_index, is_dictionary};
ghost use Rattle.dictionary.specs.LineOrder.{state_of};
ghost use Rattle.dictionary.specs.LinesTaken.{takes, Counted};
ghost use Rattle.records.specs.Records.{lines_from};
ghost use Rattle.records.specs.LineLengths.{text_length};

use crate::line_order::{Standing, next_standing};
use crate::line_runs::{count_one, run_after};
use ascending::search::is_strictly_ascending;
use dictionary_order::dictionary_order::{Part, Stage};
use records::line_texts::text_length;
use records::record_kind::RecordKind;
use records::records::line_at;

// How many bytes a line has at most, with its line feed: a value of 32 bytes has the longest.
const LONGEST_LINE: usize = 39;

// A text may end here: after its trailer, and with no block open.
#[tactic(auto, unfolding(ascii::specs::Notation::is_between))]
fn may_end(standing: Standing) -> bool
    ensures { (counts : List ℕ) → result ≡ may_end (state_of standing counts) }
{
    matches!(standing.stage, Stage::AfterTrailer | Stage::AfterMessage)
}

// What was read of lines that are accepted: how many bytes their text has at most, and how many of
// them define a tag, a component, a message.
#[derive(Clone, Copy, Default)]
struct LinesRead {
    bytes: usize,
    tags: usize,
    components: usize,
    messages: usize,
}

// Takes the lines of so many records, one after the other. A text with no block open may end after
// them.
// A slice of the records, in a struct with the bound, was tried: `is_dictionary` took 1.4 % more.
fn take_lines(words: &[u32], lines: usize) -> Option<LinesRead>
    requires { (lines ≤ 4294967295) × (4 + 10 * lines ≤ length words.now) }
    ensures accepted { is_some result ≡ takes start 1 (lines_from lines (drop 4 words.now)) }
    ensures bytes { IfSome result (λ read. text_length (lines_from lines (drop 4 words.now)) ≤ read.bytes) }
    ensures counts { IfSome result (λ read. Counted lines (drop 4 words.now) read.tags read.components read.messages) }
{
    let mut counts = [0; 40];
    let mut standing = Standing {
        stage: Stage::Beginning,
        part: Part::NoBody,
        name: 0,
        depth: 0,
    };
    let mut clean = true;
    let mut read = LinesRead::default();
    let mut done = 0;
    let mut at = 4;
    // a turn passes over as many records as the run has, so no iterator gives them
    while done < lines {
        standing = next_standing(standing, &mut counts, line_at(words, at))?;
        let run = run_after(standing, clean, lines - done - 1, words, at + 10);
        clean = run.is_some();
        let run = run.unwrap_or_default();
        let kind = words[at];
        read.bytes += LONGEST_LINE + run.bytes;
        read.tags += count_one(kind, RecordKind::Def as u32) + run.tags;
        read.components += count_one(kind, RecordKind::Component as u32);
        read.messages += count_one(kind, RecordKind::Message as u32);
        done += 1 + run.lines;
        at += 10 + 10 * run.lines;
    }
    may_end(standing).then_some(read)
}

// Whether the lines of records are those of an accepted text, but for what is defined again. The
// bytes of the text are counted only where it may have too many.
// A slice of the records, in a struct with the bound, was tried: `is_dictionary` took 1.4 % more.
fn read_lines(words: &[u32], lines: usize) -> Option<LinesRead>
    requires { (lines ≤ 4294967295) × (4 + 10 * lines ≤ length words.now) }
    ensures accepted { is_some result ≡ accepts start 1 0 (lines_from lines (drop 4 words.now)) }
    ensures counts { IfSome result (λ read. Counted lines (drop 4 words.now) read.tags read.components read.messages) }
{
    let read = take_lines(words, lines)?;
    if read.bytes <= 65536 || text_length(words, lines) <= 65536 {
        return Some(read);
    }
    None
}

// The record with this number is of this kind and has this name.
#[tactic(auto, unfolding(crate::specs::DictionaryCheck::stands_at))]
pub fn stands_at(words: &[u32], kind: u32, name: u32, number: u32) -> bool
    requires { (4 ≤ length words.now) × (4 + 10 * get_or words.now 0 0 ≤ length words.now) }
    ensures { result ≡ stands_at kind name number words.now }
{
    if words[0] <= number {
        return false;
    }
    let at = 4 + 10 * (number as usize);
    words[at] == kind && words[at + 1] == name
}

// The index at this place has the names of all records of this kind in ascending order, each once,
// and where they stand.
fn is_index(words: &[u32], kind: u32, at: usize, count: usize, counted: usize) -> bool
    requires in_bounds { (4 ≤ length words.now) × ((4 + 10 * get_or words.now 0 0 ≤ length words.now) × (at + 2 * count ≤ length words.now)) }
    requires counted { counted ≡ count_of kind (get_or words.now 0 0) (drop 4 words.now) }
    ensures { result ≡ is_index kind at count words.now }
{
    let names = &words[at..at + count];
    let numbers = &words[at + count..at + 2 * count];
    counted == count
        && is_strictly_ascending(names)
        && names
            .iter()
            .zip(numbers)
            .all(|(name, number)| stands_at(words, kind, *name, *number))
}

// The words begin with the arrangement of an accepted dictionary.
pub fn is_dictionary(words: &[u32]) -> bool
    ensures outcome { result ≡ is_dictionary words.now }
{
    let [lines, tags, components, messages, ..] = words else {
        return false;
    };
    let lines = *lines as usize;
    let tags = *tags as usize;
    let components = *components as usize;
    let messages = *messages as usize;
    let tags_at = 4 + 10 * lines;
    let components_at = tags_at + 2 * tags;
    let messages_at = components_at + 2 * components;
    let size = messages_at + 2 * messages;
    if words.len() < size {
        return false;
    }
    let Some(read) = read_lines(words, lines) else {
        return false;
    };
    is_index(words, RecordKind::Def as u32, tags_at, tags, read.tags)
        && is_index(
            words,
            RecordKind::Component as u32,
            components_at,
            components,
            read.components,
        )
        && is_index(
            words,
            RecordKind::Message as u32,
            messages_at,
            messages,
            read.messages,
        )
}
