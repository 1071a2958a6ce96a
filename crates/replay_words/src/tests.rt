// Lines of the recorded lists, replayed in lent arrays.
use crate::dictionary_cases::DictionaryCases;
use crate::expand_cases::ExpandCases;
use crate::layout_cases::LayoutCases;
use replay_lines::block::{BLOCK_WORDS, Parts};
use replay_lines::cases::{ByteCases, Replayed, Unread};
use replay_space::space::Word;

#[test]
fn replays_dictionaries(rt: HostRuntime) {
    let mut bytes = [0u8; 1024];
    let mut numbers = [0u64; 64];
    let mut words = [0u32; 64];
    let mut space = [0u32; u32::MOST];
    let mut cases = DictionaryCases::new(&mut bytes, &mut numbers, &mut words, &mut space);
    let same = Ok(Some(Replayed::Same));
    assert_eq!(rt; cases.replay(b"- refused 3 1"), same);
    let line = b"626567696e3d6865616465720a656e643d6865616465720a626567696e3d747261696c65720a\
                656e643d747261696c65720a accepted 4 4 0 0 0 3 0 0 0 0 0 0 0 0 0 10 0 0 0 0 0 \
                0 0 0 0 4 0 0 0 0 0 0 0 0 0 11 0 0 0 0 0 0 0 0 0";
    assert_eq!(rt; cases.replay(line), same);
}

#[test]
fn replays_layouts(rt: HostRuntime) {
    let mut bytes = [0u8; 1024];
    let mut numbers = [0u64; 64];
    let mut words = [0u32; 64];
    let mut space = [0u32; u32::MOST];
    let mut cases = LayoutCases::new(&mut bytes, &mut numbers, &mut words, &mut space);
    assert_eq!(rt; cases.replay(b"- accepted 0"), Ok(None));
    assert_eq!(rt;
        cases.replay(b"words 0 7 7 7 7 7 7"),
        Ok(Some(Replayed::Same))
    );
    assert_eq!(rt;
        cases.replay(b"words 0 7 7 7 7 7 8"),
        Ok(Some(Replayed::Differs))
    );
}

#[test]
fn replays_expansions(rt: HostRuntime) {
    let mut dictionary = [0u32; BLOCK_WORDS];
    let mut bytes = [0u8; 1024];
    let mut numbers = [0u64; 64];
    let mut words = [0u32; 64];
    let mut space = [0u32; u32::MOST];
    let parts = Parts::new(&mut dictionary, &mut bytes);
    let mut cases = ExpandCases::new(parts, &mut numbers, &mut words, &mut space);
    let same = Ok(Some(Replayed::Same));
    let line = b"dictionary 6465663d33352c537472696e670a6465663d3434382c537472696e670a6465663d34\
                34372c436861720a76616c75653d440a6465663d3435332c4e756d496e47726f75700a626567696e\
                3d6865616465720a6669656c643d33352c310a656e643d6865616465720a626567696e3d74726169\
                6c65720a656e643d747261696c65720a6d6573736167653d442c6170700a67726f75703d3435332c\
                3434382c310a6669656c643d3434372c310a656e643d3435330a656e643d440a";
    assert_eq!(rt; cases.replay(line), Ok(None));
    let line = b"expand 44 1 1 13 15 17 17 18 19 10 11 11 453 448 1 35 453 447 448 35 447";
    assert_eq!(rt; cases.replay(line), same);
    assert_eq!(rt; cases.replay(b"expand 45 refused 6 0"), same);
    assert_eq!(rt; cases.replay(b"walk 0"), Err(Unread::NoForm));
}
