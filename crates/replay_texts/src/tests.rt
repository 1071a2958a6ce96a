// Lines of the recorded lists, replayed in lent arrays.
use crate::count_cases::CountCases;
use crate::recorded_text::{TEXT_BYTES, TextAbove};
use crate::text_cases::{DictionaryTextCases, LayoutTextCases};
use crate::value_cases::ValueCases;
use replay_lines::cases::{ByteCases, Replayed, Unread};
use std::test::Fail;

#[test]
fn reads_pieces(rt: HostRuntime) -> Result<(), Fail> {
    let mut room = [0u8; TEXT_BYTES];
    let mut text = TextAbove::new(&mut room);
    let (bytes, answer) = text.read(b"@1 76616c75653d @3 41 @1 0a refused 2 1")?;
    assert_eq!(rt; bytes, b"value=AAA\n".as_slice());
    assert_eq!(rt; answer, b"refused 2 1".as_slice());
    assert!(rt; text.read(b"@1 4x refused 2 1").is_err());
    assert!(rt; text.read(b"words 1").is_err());
    let (bytes, answer) = text.read(b"@0 4x refused 2 1")?;
    assert_eq!(rt; bytes.len(), 0);
    assert_eq!(rt; answer, b"refused 2 1".as_slice());
    assert!(rt; text.read(b"@140001 41 refused 2 1").is_err());
    Ok(())
}

#[test]
fn replays_lines(rt: HostRuntime) {
    let mut bytes = [0u8; TEXT_BYTES];
    let same = Ok(Some(Replayed::Same));
    assert_eq!(rt; CountCases.replay(b"2b none"), same);
    assert_eq!(rt; CountCases.replay(b"31 1"), same);
    assert_eq!(rt; CountCases.replay(b"31 2"), Ok(Some(Replayed::Differs)));
    assert_eq!(rt; CountCases.replay(b"31"), Err(Unread::NoForm));
    assert_eq!(rt; ValueCases.replay(b"00 - 0 0"), same);
    assert_eq!(rt; ValueCases.replay(b"00 30 1 1"), same);
    assert_eq!(rt;
        DictionaryTextCases::new(&mut bytes).replay(b"- refused 3 1"),
        same
    );
    assert_eq!(rt;
        DictionaryTextCases::new(&mut bytes).replay(b"@65535 0a refused 2 1"),
        same
    );
    assert_eq!(rt;
        LayoutTextCases::new(&mut bytes).replay(b"- accepted 0"),
        same
    );
    assert_eq!(rt;
        LayoutTextCases::new(&mut bytes).replay(b"words 0 7 7 7 7 7 7"),
        Ok(None)
    );
}
