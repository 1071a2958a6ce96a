// Calls that are lent space, beside their recorded answers.
use crate::in_space::{replay_refused, replay_written};
use crate::space::{Word, is_unwritten, make_space, took_from_start, took_words};
use refusals::refusal::Refusal;
use replay_lines::cases::Replayed;
use replay_lines::given::{Given, Refused, Written};

// A call that writes one word.
fn write_one<W: Word>(space: &mut [W], word: W) -> Given {
    match space.first_mut() {
        Some(first) => {
            *first = word;
            Ok(Written {
                number: 3,
                words: 1,
            })
        }
        None => Err(Refusal::SpaceShort(1)),
    }
}

#[test]
fn replays_words_of_either_size(rt: HostRuntime) {
    let mut room = [0u32; u32::MOST];
    let space = make_space(&mut room);
    let replayed = replay_written(|lent| write_one(lent, 5), 3, &[5], space);
    assert_eq!(rt; replayed, Replayed::Same);
    assert!(rt; is_unwritten(space));
    let mut room = [0u64; u64::MOST];
    let space = make_space(&mut room);
    let replayed = replay_written(|lent| write_one(lent, 5), 3, &[5], space);
    assert_eq!(rt; replayed, Replayed::Same);
    let replayed = replay_written(|lent| write_one(lent, 5), 3, &[6], space);
    assert_eq!(rt; replayed, Replayed::Differs);
    let replayed = replay_written(|lent| write_one(lent, 5), 4, &[5], space);
    assert_eq!(rt; replayed, Replayed::Differs);
}

#[test]
fn replays_a_refusal(rt: HostRuntime) {
    let mut room = [0u32; u32::MOST];
    let space = make_space(&mut room);
    let refused = Refused::from(Refusal::MembersOver);
    let replayed = replay_refused(
        |_lent: &mut [u32]| Err(Refusal::MembersOver),
        Some(refused),
        space,
    );
    assert_eq!(rt; replayed, Replayed::Same);
    let replayed = replay_refused(
        |_lent: &mut [u32]| Err(Refusal::TypeNotDefined),
        Some(refused),
        space,
    );
    assert_eq!(rt; replayed, Replayed::Differs);
}

// After the recorded words one more is written.
#[test]
fn clears_what_was_written(rt: HostRuntime) {
    let mut space = [5u32, 6, u32::UNWRITTEN];
    assert!(rt; !took_from_start(&mut space, &[5]));
    assert_eq!(rt; space, [u32::UNWRITTEN, 6, u32::UNWRITTEN]);
    assert!(rt; !took_words(&mut space, &[u32::UNWRITTEN]));
    assert!(rt; is_unwritten(&space));
    let mut space = [5u32, 6, u32::UNWRITTEN];
    assert!(rt; took_words(&mut space, &[5, 6]));
    assert!(rt; is_unwritten(&space));
    let mut space = [5u32];
    assert!(rt; !took_words(&mut space, &[5, 6]));
    assert!(rt; is_unwritten(&space));
}
