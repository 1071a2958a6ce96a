// Runs of lines that leave the standing as it is: definitions with their values, the fields of a
// body. Most lines of a dictionary stand in one, so they are passed over without building the line
// of each.
//
// Two words of a record are read as one number, `head` the first two and `next` those behind them.
// What the records of a run must not have is joined over the run and tested once: a test of each
// record takes longer.
ghost use Rattle.std.specs.Prelude.{◌≡◌, true, false, ◌+◌, ◌*◌, ◌/◌, ◌%◌, ◌≤◌, length, drop, IfSome};
ghost use Rattle.dictionary.specs.LinesTaken.{count_one};
ghost use Rattle.dictionary.specs.LineRuns.{HoldsShort, FewDigits, IsRun, FewIn, is_among_definitions, PassedOver};

use crate::line_order::Standing;
use dictionary_order::dictionary_order::{Part, Stage};
use records::line_texts::type_length;
use records::record_kind::RecordKind;
use records::records::{RECORD, holds_visible_part, pair_at};

// How many lines stand in the run, how many bytes they have with their line feeds at most, and how
// many of them define a tag.
#[derive(Clone, Copy, Default)]
pub struct Run {
    pub lines: usize,
    pub bytes: usize,
    pub tags: usize,
}

// The kind of a value's record and the length of a value of one byte.
const ONE_BYTE: u64 = 0x1_0000_0002;

// 1 for a record of this kind.
pub fn count_one(found: u32, kind: u32) -> usize
    ensures one { result ≡ count_one found kind }
    ensures few { result ≤ 1 }
{
    if found == kind { 1 } else { 0 }
}

// How many digits a number has at most that is none above the one in the upper half of `names`.
fn digits_within(names: u64) -> usize
    ensures digits { FewDigits result names }
    ensures few { result ≤ 10 }
{
    match names / 0x1_0000_0000 {
        0..10 => 1,
        10..100 => 2,
        100..1000 => 3,
        1000..10000 => 4,
        10000..100000 => 5,
        _ => 10,
    }
}

// The record has a value of one byte in its third word, and nothing in its fourth.
fn is_one_byte(next: u64) -> bool
    ensures { result ≡ true → (next / 4294967296 ≡ 0) × HoldsShort 1 (next % 4294967296) }
{
    next % 0x100_0000 == 0 && matches!(next / 0x100_0000, 0x21..=0x7E)
}

// The record has a value of at most four bytes in its third word, and nothing in its fourth.
fn is_short_value(head: u64, next: u64) -> bool
    ensures { result ≡ true → (head % 4294967296 ≡ 2) × ((next / 4294967296 ≡ 0) × HoldsShort (head / 4294967296) (next % 4294967296)) }
{
    if head % 0x1_0000_0000 != RecordKind::Value as u64 {
        return false;
    }
    let len = head / 0x1_0000_0000;
    if !matches!(len, 1..=4) || 0x1_0000_0000 <= next {
        return false;
    }
    holds_visible_part(len as u32, next as u32)
}

// A run of definitions with values of at most four bytes. `bytes` counts those of the type names
// and what longer values have beside those of one byte; the other bytes follow from the number of
// lines, of tags and of the digits that a tag has at most. None where a record has a word that its
// kind does not use.
// A slice of the records, in a struct with the bound, was tried: `is_dictionary` took 1.4 % more.
fn definitions_run(count: usize, words: &[u32], first: usize) -> Option<Run>
    requires { (count ≤ 4294967295) × (first + 10 * count ≤ length words.now) }
    ensures run { IfSome result (λ run. IsRun true run.lines run.bytes run.tags (drop first words.now)) }
    ensures few { IfSome result (λ run. FewIn run count) }
{
    let mut lines = 0;
    let mut bytes = 0;
    let mut tags = 0;
    let mut names = 0;
    let mut pair4 = 0;
    let mut pair6 = 0;
    let mut pair8 = 0;
    for record in words[first..first + 10 * count].chunks_exact(RECORD) {
        let head = pair_at(record, 0);
        let next = pair_at(record, 2);
        if head == ONE_BYTE {
            if !is_one_byte(next) {
                break;
            }
        } else if head % 0x1_0000_0000 == RecordKind::Def as u64 {
            if 34 <= next {
                break;
            }
            names |= head;
            bytes += type_length(next as u32);
            tags += 1;
        } else {
            if !is_short_value(head, next) {
                break;
            }
            bytes += 3;
        }
        pair4 |= pair_at(record, 4);
        pair6 |= pair_at(record, 6);
        pair8 |= pair_at(record, 8);
        lines += 1;
    }
    if pair4 | pair6 | pair8 != 0 {
        return None;
    }
    let digits = digits_within(names);
    Some(Run {
        lines,
        bytes: bytes + 8 * (lines - tags) + tags * (6 + digits),
        tags,
    })
}

// A run of fields.
// A slice of the records, in a struct with the bound, was tried: `is_dictionary` took 1.4 % more.
fn fields_run(count: usize, words: &[u32], first: usize) -> Option<Run>
    requires { (count ≤ 4294967295) × (first + 10 * count ≤ length words.now) }
    ensures run { IfSome result (λ run. IsRun false run.lines run.bytes run.tags (drop first words.now)) }
    ensures few { IfSome result (λ run. FewIn run count) }
{
    let mut lines = 0;
    let mut names = 0;
    let mut flags = 0;
    let mut pair4 = 0;
    let mut pair6 = 0;
    let mut pair8 = 0;
    for record in words[first..first + 10 * count].chunks_exact(RECORD) {
        let head = pair_at(record, 0);
        if head % 0x1_0000_0000 != RecordKind::Field as u64 {
            break;
        }
        names |= head;
        flags |= pair_at(record, 2);
        pair4 |= pair_at(record, 4);
        pair6 |= pair_at(record, 6);
        pair8 |= pair_at(record, 8);
        lines += 1;
    }
    if flags / 2 | pair4 | pair6 | pair8 != 0 {
        return None;
    }
    let digits = digits_within(names);
    Some(Run {
        lines,
        bytes: lines * (9 + digits),
        tags: 0,
    })
}

// Definitions are being read, and a further one leaves the standing as it is.
#[tactic(auto, unfolding(crate::specs::LineRuns::is_among_definitions))]
fn is_among_definitions(standing: Standing) -> bool
    ensures { result ≡ is_among_definitions standing }
{
    matches!(standing.stage, Stage::Definitions)
        && matches!(standing.part, Part::NoBody)
        && standing.name == 0
        && standing.depth == 0
}

// A run at the head of these records that leaves this standing as it is; None where one was not
// clean before or is not now, so that no record is looked at again and again.
// A slice of the records, in a struct with the bound, was tried: `is_dictionary` took 1.4 % more.
pub fn run_after(
    standing: Standing,
    clean: bool,
    count: usize,
    words: &[u32],
    first: usize,
) -> Option<Run>
    requires { (count ≤ 4294967295) × (first + 10 * count ≤ length words.now) }
    ensures run { IfSome result (λ run. PassedOver standing run.lines run.bytes run.tags (drop first words.now)) }
    ensures few { IfSome result (λ run. FewIn run count) }
{
    if !clean {
        return None;
    }
    if is_among_definitions(standing) {
        return definitions_run(count, words, first);
    }
    match standing.part {
        Part::Fields => fields_run(count, words, first),
        _ => Some(Run::default()),
    }
}

// The same run, of no lines where there is none.
pub fn run_behind(standing: Standing, clean: bool, count: usize, words: &[u32], first: usize) -> Run
    requires { (count ≤ 4294967295) × (first + 10 * count ≤ length words.now) }
    ensures run { PassedOver standing result.lines result.bytes result.tags (drop first words.now) }
    ensures few { FewIn result count }
{
    run_after(standing, clean, count, words, first).unwrap_or_default()
}
