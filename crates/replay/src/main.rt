// Replays the answers of the Rust that oracle/record.sh recorded, and says how many cases ran and how
// many differ.
#![tactic(auto)]

use replay_lines::block::{BLOCK_WORDS, Parts};
use replay_lines::cases::ByteCases;
use replay_lines::recorded_files::replay_list;
use replay_lines::recorded_values::MOST_NUMBERS;
use replay_space::space::Word;
use replay_texts::count_cases::CountCases;
use replay_texts::recorded_text::TEXT_BYTES;
use replay_texts::text_cases::{DictionaryTextCases, LayoutTextCases};
use replay_texts::value_cases::ValueCases;
use replay_walks::message_cases::{DictionaryForm, MessageCases};
use replay_walks::walk_cases::WalkCases;
use replay_words::dictionary_cases::DictionaryCases;
use replay_words::expand_cases::ExpandCases;
use replay_words::layout_cases::LayoutCases;
use std::io;

fn main(rt: HostRuntime) -> io::Result<()> {
    replay(
        &rt,
        "is_valid_value, plain and strict",
        b"is_valid_value.cases",
        ValueCases,
    )?;
    replay(&rt, "parse_count", b"parse_count.cases", CountCases)?;
    replay_dictionary_texts(&rt)?;
    replay_dictionaries(&rt)?;
    replay_layout_texts(&rt)?;
    replay_layouts(&rt)?;
    replay_walks(&rt)?;
    replay_messages(
        &rt,
        "check_values, plain and strict",
        b"check_values.cases",
        DictionaryForm::Words,
    )?;
    replay_messages(
        &rt,
        "walk_message, with its verdicts",
        b"walk_message.cases",
        DictionaryForm::Text,
    )?;
    replay_expansions(&rt)
}

// There is no heap: the arrays that the cases of a list are lent stand in the function that replays
// the list. Each is compiled by itself, so that no list takes the memory of another.
#[inline(never)]
fn replay_dictionary_texts(rt: &HostRuntime) -> io::Result<()> {
    let mut bytes = [0u8; TEXT_BYTES];
    let cases = DictionaryTextCases::new(&mut bytes);
    replay(rt, "check_dictionary_text", b"read_dictionary.cases", cases)
}

#[inline(never)]
fn replay_dictionaries(rt: &HostRuntime) -> io::Result<()> {
    let mut bytes = [0u8; TEXT_BYTES];
    let mut numbers = [0u64; MOST_NUMBERS];
    let mut words = [0u32; MOST_NUMBERS];
    let mut space = [0u32; u32::MOST];
    let cases = DictionaryCases::new(&mut bytes, &mut numbers, &mut words, &mut space);
    replay(rt, "read_dictionary", b"read_dictionary.cases", cases)
}

#[inline(never)]
fn replay_layout_texts(rt: &HostRuntime) -> io::Result<()> {
    let mut bytes = [0u8; TEXT_BYTES];
    let cases = LayoutTextCases::new(&mut bytes);
    replay(rt, "check_layout_text", b"read_layout.cases", cases)
}

#[inline(never)]
fn replay_layouts(rt: &HostRuntime) -> io::Result<()> {
    let mut bytes = [0u8; TEXT_BYTES];
    let mut numbers = [0u64; MOST_NUMBERS];
    let mut words = [0u32; MOST_NUMBERS];
    let mut space = [0u32; u32::MOST];
    let cases = LayoutCases::new(&mut bytes, &mut numbers, &mut words, &mut space);
    replay(rt, "read_layout", b"read_layout.cases", cases)
}

#[inline(never)]
fn replay_walks(rt: &HostRuntime) -> io::Result<()> {
    let mut words = [0u32; BLOCK_WORDS];
    let mut bytes = [0u8; TEXT_BYTES];
    let mut numbers = [0u64; MOST_NUMBERS];
    let mut space = [0u64; u64::MOST];
    let parts = Parts::new(&mut words, &mut bytes);
    let cases = WalkCases::new(parts, &mut numbers, &mut space);
    replay(rt, "walk_group", b"walk_group.cases", cases)
}

#[inline(never)]
fn replay_messages(
    rt: &HostRuntime,
    call: &str,
    file: &[u8],
    form: DictionaryForm,
) -> io::Result<()> {
    let mut words = [0u32; BLOCK_WORDS];
    let mut bytes = [0u8; TEXT_BYTES];
    let mut numbers = [0u64; MOST_NUMBERS];
    let mut space = [0u64; u64::MOST];
    let parts = Parts::new(&mut words, &mut bytes);
    let cases = MessageCases::new(form, parts, &mut numbers, &mut space);
    replay(rt, call, file, cases)
}

#[inline(never)]
fn replay_expansions(rt: &HostRuntime) -> io::Result<()> {
    let mut dictionary = [0u32; BLOCK_WORDS];
    let mut bytes = [0u8; TEXT_BYTES];
    let mut numbers = [0u64; MOST_NUMBERS];
    let mut words = [0u32; MOST_NUMBERS];
    let mut space = [0u32; u32::MOST];
    let parts = Parts::new(&mut dictionary, &mut bytes);
    let cases = ExpandCases::new(parts, &mut numbers, &mut words, &mut space);
    replay(rt, "expand", b"expand.cases", cases)
}

// One line: the name of the call, the cases, those that differ and those whose line is of no known
// form.
fn replay<C: ByteCases>(rt: &HostRuntime, call: &str, file: &[u8], cases: C) -> io::Result<()> {
    let tally = replay_list(rt, file, cases)?;
    let cases = tally.cases;
    let differ = tally.differ;
    let unread = tally.unread;
    println!(rt; "{call}: {cases} cases, {differ} differ, {unread} of no known form")
}
