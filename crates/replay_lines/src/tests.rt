// What reads a recorded line, into lent arrays, and a list whose lines are text.
use crate::block::{BLOCK_WORDS, DICTIONARY_WORDS, Parts};
use crate::cases::{Cases, NotReplayed, Replayed, Unread};
use crate::given::{Refused, is_refusal};
use crate::recorded_files::{Tally, replay_file};
use crate::recorded_values::{
    MOST_NUMBERS, first_word, most_numbers, read_bytes, read_line_numbers, read_numbers,
    read_numbers_in, read_pairs, split_kind,
};
use refusals::refusal::Refusal;
use std::alloc::{AllocError, AllocFailed};
use std::io::Write;
use std::test::Fail;
use std::{fs, io};

#[test]
fn reads_values(rt: HostRuntime) -> Result<(), Fail> {
    let mut bytes = [0u8; 2];
    assert_eq!(rt; read_bytes(b"4432", &mut bytes)?, b"D2".as_slice());
    assert_eq!(rt; read_bytes(b"-", &mut bytes)?.len(), 0);
    assert!(rt; read_bytes(b"443", &mut bytes).is_err());
    assert!(rt; read_bytes(b"443244", &mut bytes).is_err());
    let mut words = [0u32; 3];
    let read = read_numbers_in(b"0 7 4294967295", &mut words)?;
    assert_eq!(rt; read, [0, 7, 0xffff_ffff].as_slice());
    assert!(rt; read_numbers_in(b"4294967296", &mut words).is_err());
    assert!(rt; read_numbers_in(b"0 7 5 6", &mut words).is_err());
    let mut numbers = [0u64; 3];
    assert_eq!(rt; read_numbers_in(b"4294967296", &mut numbers)?.len(), 1);
    assert_eq!(rt; read_numbers_in(b"", &mut numbers)?.len(), 0);
    Ok(())
}

#[test]
fn reads_values_of_another_form(rt: HostRuntime) -> Result<(), Fail> {
    let mut bytes = [0u8; 2];
    assert_eq!(rt; read_pairs(b"443", &mut bytes)?, b"D".as_slice());
    assert_eq!(rt; read_pairs(b"x", &mut bytes)?.len(), 0);
    assert!(rt; read_pairs(b"4D", &mut bytes).is_err());
    let mut numbers = [0u64; 3];
    assert_eq!(rt; read_numbers_in(b"1 2 ", &mut numbers)?.len(), 2);
    assert!(rt; read_numbers_in(b"1  2", &mut numbers).is_err());
    assert!(rt; read_numbers_in(b"1 2  ", &mut numbers).is_err());
    assert!(rt; read_numbers_in(b" ", &mut numbers).is_err());
    assert!(rt; read_numbers_in(b"+1", &mut numbers).is_err());
    assert!(rt; read_numbers_in(b"1\t2", &mut numbers).is_err());
    assert!(rt; read_numbers_in(b"18446744073709551616", &mut numbers).is_err());
    assert_eq!(rt; split_kind(b"walk"), (b"walk".as_slice(), b"".as_slice()));
    assert!(rt; first_word(b"walk").is_err());
    Ok(())
}

#[test]
fn reads_a_block(rt: HostRuntime) -> Result<(), Fail> {
    let mut words = [0u32; BLOCK_WORDS];
    let mut bytes = [0u8; 1];
    let mut parts = Parts::new(&mut words, &mut bytes);
    parts.read_part(b"dictionary", b"9 4")?;
    parts.read_part(b"layout", b"0 7 7")?;
    parts.read_part(b"fields", b"35 0 1")?;
    parts.read_part(b"message", b"44")?;
    let block = parts.block()?;
    assert_eq!(rt; block.dictionary, [9, 4].as_slice());
    assert_eq!(rt; block.layout, [0, 7, 7].as_slice());
    assert_eq!(rt; block.fields, [35, 0, 1].as_slice());
    assert_eq!(rt; block.message, b"D".as_slice());
    assert_eq!(rt; parts.read_part(b"walk", b"0 1"), Err(Unread::NoForm));
    assert_eq!(rt; parts.read_part(b"layout", b"0,7"), Err(Unread::NoForm));
    assert!(rt; parts.block().is_err());
    Ok(())
}

#[test]
fn reads_refusals(rt: HostRuntime) {
    let recorded = Refused::from(Refusal::UnknownForm(7));
    assert_eq!(rt; Refused::recorded(b"2 7"), Some(recorded));
    assert_eq!(rt; Refused::recorded(b"2"), None);
    assert!(rt; is_refusal(b"refused 2 7"));
    assert!(rt; !is_refusal(b"accepted 2"));
}

#[test]
fn tells_the_refusals_of_a_layout(rt: HostRuntime) {
    assert!(rt; !Refused::from(Refusal::OutOfNodes(453)).is_of_layout());
    assert!(rt; Refused::from(Refusal::MembersOver).is_of_layout());
    assert!(rt; Refused::from(Refusal::RuleBroken(453, 1)).is_of_layout());
    assert!(rt; !Refused::from(Refusal::BadField(0)).is_of_layout());
}

#[test]
fn reads_numbers_of_text(rt: HostRuntime) -> Result<(), Fail> {
    let alloc = rt.alloc();
    let words = read_numbers::<u32>(alloc, "0 7 4294967295")?;
    assert_eq!(rt; words.as_slice(), [0, 7, 0xffff_ffff].as_slice());
    assert!(rt; read_numbers::<u32>(alloc, "4294967296").is_err());
    assert_eq!(rt; read_numbers::<u64>(alloc, "4294967296")?.len(), 1);
    assert_eq!(rt; read_numbers::<u64>(alloc, "")?.len(), 0);
    assert_eq!(rt; read_numbers::<u64>(alloc, " 1  +2\t3 ")?.len(), 3);
    assert_eq!(rt; read_numbers::<u64>(alloc, "1 x"), Err(NotReplayed::NoForm));
    Ok(())
}

// One number more than a line of a list has at most.
#[test]
fn reads_more_numbers_where_they_have_room(rt: HostRuntime) -> Result<(), Fail> {
    let mut text = [b' '; 2 * MOST_NUMBERS + 1];
    for digit in text.iter_mut().step_by(2) {
        *digit = b'0';
    }
    let mut words = [0u32; BLOCK_WORDS];
    assert_eq!(rt; read_numbers_in(&text, &mut words)?.len(), MOST_NUMBERS + 1);
    assert_eq!(rt; most_numbers(64), MOST_NUMBERS);
    assert_eq!(rt; most_numbers(BLOCK_WORDS), BLOCK_WORDS);
    let mut few = [0u32; MOST_NUMBERS];
    assert!(rt; read_numbers_in(&text, &mut few).is_err());
    assert!(rt; read_line_numbers(&text, &mut words).is_err());
    let numbers = read_numbers::<u32>(rt.alloc(), str::from_utf8(&text)?)?;
    assert_eq!(rt; numbers.len(), MOST_NUMBERS + 1);
    let mut bytes = [0u8; 1];
    let mut parts = Parts::new(&mut words, &mut bytes);
    parts.read_part(b"dictionary", &text)?;
    assert_eq!(rt; parts.block()?.dictionary.len(), MOST_NUMBERS + 1);
    assert!(rt;
        parts
            .read_part_within(b"dictionary", &text, MOST_NUMBERS)
            .is_err()
    );
    parts.read_part_within(b"dictionary", &text, DICTIONARY_WORDS)?;
    assert_eq!(rt; parts.block()?.dictionary.len(), MOST_NUMBERS + 1);
    Ok(())
}

#[test]
fn tells_why_a_line_is_not_replayed(rt: HostRuntime) {
    let failed = AllocFailed { value: 0u8 };
    assert_eq!(rt; NotReplayed::from(AllocError), NotReplayed::OutOfMemory);
    assert_eq!(rt; NotReplayed::from(failed), NotReplayed::OutOfMemory);
    assert_eq!(rt; NotReplayed::from(Unread::NoForm), NotReplayed::NoForm);
}

// Cases that are said on their lines.
#[derive(Drop)]
struct SaidCases;

impl Cases for SaidCases {
    fn replay(&mut self, line: &str) -> Result<Option<Replayed>, NotReplayed> {
        match line {
            "gives" => Ok(None),
            "same" => Ok(Some(Replayed::Same)),
            "differs" => Ok(Some(Replayed::Differs)),
            "no memory" => Err(NotReplayed::OutOfMemory),
            _ => Err(NotReplayed::NoForm),
        }
    }
}

// Replays a file with these bytes, which no other test has, and takes it away.
fn replay_bytes(rt: &HostRuntime, bytes: &[u8]) -> Result<io::Result<Tally>, Fail> {
    let alloc = rt.alloc();
    for number in 0..1000u32 {
        let name = format!(in alloc; "/tmp/replay_lines_{number}")?;
        let opened = fs::File::options()
            .write(true)
            .create_new(true)
            .open(rt, name.as_str());
        if let Ok(mut file) = opened {
            let written = file.write_all(bytes);
            let tally = replay_file(rt, name.as_bytes(), SaidCases);
            fs::remove_file(rt, name.as_str())?;
            written?;
            return Ok(tally);
        }
    }
    Err(Fail::new("no name is free"))
}

#[test]
fn replays_text(rt: HostRuntime) -> Result<(), Fail> {
    let list = b"# a comment\n\ngives\nsame\r\nsame\ndiffers\nother\nsame".as_slice();
    let tally = replay_bytes(&rt, list)??;
    assert_eq!(rt; (tally.cases, tally.differ, tally.unread), (5, 1, 1));
    assert!(rt; replay_bytes(&rt, b"same\nno memory\nsame\n")?.is_err());
    assert!(rt; replay_bytes(&rt, b"same\n\xff\n")?.is_err());
    let tally = replay_file(&rt, b"/tmp/replay_lines/there is no such file", SaidCases)?;
    assert_eq!(rt; (tally.cases, tally.differ, tally.unread), (0, 0, 0));
    Ok(())
}
