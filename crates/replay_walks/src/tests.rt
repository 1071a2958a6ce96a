// Lines of the recorded lists, replayed in lent arrays.
use crate::message_cases::{DictionaryForm, MessageCases};
use crate::walk_cases::WalkCases;
use replay_lines::block::{BLOCK_WORDS, Parts};
use replay_lines::cases::{ByteCases, Replayed, Unread};
use replay_lines::recorded_values::MOST_NUMBERS;
use replay_space::space::Word;

#[test]
fn replays_walks(rt: HostRuntime) {
    let mut words = [0u32; BLOCK_WORDS];
    let mut bytes = [0u8; 64];
    let mut numbers = [0u64; 64];
    let mut space = [0u64; u64::MOST];
    let parts = Parts::new(&mut words, &mut bytes);
    let mut cases = WalkCases::new(parts, &mut numbers, &mut space);
    for line in [
        "layout 1 13 14 15 15 15 15 10 11 11 9 1 0 9 1",
        "message 393d3001313d7601",
        "fields 9 2 3 1 6 7",
    ] {
        assert_eq!(rt; cases.replay(line.as_bytes()), Ok(None));
    }
    let same = Ok(Some(Replayed::Same));
    assert_eq!(rt;
        cases.replay(b"walk 0 9 2 1 9 0 0 0 5 9 0 0 1 6 9 0 0 1 8 9 0 0 1"),
        same
    );
    assert_eq!(rt;
        cases.replay(b"walk 1 9 2 1 9 0 0 0 2 9 0 1 0 8 9 0 0 0"),
        same
    );
    assert_eq!(rt; cases.replay(b"walk 2 9 3"), Ok(Some(Replayed::Differs)));
    assert_eq!(rt; cases.replay(b"walk 2 9"), Err(Unread::NoForm));
}

#[test]
fn replays_verdicts(rt: HostRuntime) {
    let mut words = [0u32; BLOCK_WORDS];
    let mut bytes = [0u8; 64];
    let mut numbers = [0u64; 64];
    let mut space = [0u64; u64::MOST];
    let parts = Parts::new(&mut words, &mut bytes);
    let form = DictionaryForm::Words;
    let mut cases = MessageCases::new(form, parts, &mut numbers, &mut space);
    for line in [
        "dictionary 5 1 0 0 1 35 14 0 0 0 0 0 0 0 3 0 0 0 0 0 0 0 0 0 10 0 0 0 0 0 0 0 0 0 \
         4 0 0 0 0 0 0 0 0 0 11 0 0 0 0 0 0 0 0 0 35 0",
        "message -",
        "fields",
    ] {
        assert_eq!(rt; cases.replay(line.as_bytes()), Ok(None));
    }
    assert_eq!(rt; cases.replay(b"plain"), Ok(Some(Replayed::Same)));
    assert_eq!(rt; cases.replay(b"strict"), Ok(Some(Replayed::Same)));
    assert_eq!(rt; cases.replay(b"plain 0"), Ok(Some(Replayed::Differs)));
}

// One number more than a line of a list has at most, where there is room for it and where there is not.
#[test]
fn replays_a_longer_line_in_more_room(rt: HostRuntime) {
    let mut line = [b' '; 11 + 2 * MOST_NUMBERS + 1];
    for (byte, letter) in line.iter_mut().zip(b"dictionary ") {
        *byte = *letter;
    }
    for digit in line.iter_mut().skip(11).step_by(2) {
        *digit = b'0';
    }
    let mut words = [0u32; BLOCK_WORDS];
    let mut bytes = [0u8; 64];
    let mut numbers = [0u64; MOST_NUMBERS + 1];
    let mut space = [0u64; 64];
    let parts = Parts::new(&mut words, &mut bytes);
    let mut cases = WalkCases::new(parts, &mut numbers, &mut space);
    assert_eq!(rt; cases.replay(&line), Ok(None));
    let parts = Parts::new(&mut words, &mut bytes);
    let mut fewer = [0u64; 64];
    let mut cases = WalkCases::new(parts, &mut fewer, &mut space);
    assert_eq!(rt; cases.replay(&line), Err(Unread::NoForm));
}
