// The calls that write words of 64 bits, each lent the words of a block and its message.
use replay_lines::block::Block;
use replay_lines::given::{Given, Written};
use validator::message_call::walk_message;
use verdicts::verdicts_call::check_values;
use walk::walk_call::walk_group;

// The walk of the group with this count tag from the position on.
pub fn group_given(block: Block<'_>, position: usize, tag: u32, space: &mut [u64]) -> Given {
    let walked = walk_group(
        block.layout,
        block.fields,
        block.message,
        position,
        tag,
        space,
    );
    walked.map(|walked| Written {
        number: walked.position,
        words: walked.words,
    })
}

pub fn message_given(block: Block<'_>, space: &mut [u64]) -> Given {
    let walked = walk_message(
        block.dictionary,
        block.layout,
        block.fields,
        block.message,
        space,
    );
    walked.map(Written::from)
}

pub fn verdicts_given(block: Block<'_>, strict: bool, space: &mut [u64]) -> Given {
    check_values(block.dictionary, block.fields, block.message, strict, space).map(Written::from)
}
