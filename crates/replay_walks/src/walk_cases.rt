// Cases of `walk_group`. A block begins with `layout`, `message` and `fields`; then each line
// `walk POSITION COUNT NEXT WORD WORD ..` gives the position and the words of the events that the
// Rust's walk has. Each walk runs also with more space than it can need.
use crate::calls::group_given;
use replay_lines::block::{Block, Parts, is_part};
use replay_lines::cases::{ByteCases, Replayed, Unread};
use replay_lines::recorded_values::{most_numbers, read_numbers_in, split_kind};
use replay_space::in_space::replay_written;
use replay_space::space::make_space;

#[derive(Drop)]
pub struct WalkCases<'a> {
    parts: Parts<'a>,
    numbers: &'a mut [u64],
    space: &'a mut [u64],
}

// A line that gives no part of the block and is no walk is passed over.
impl ByteCases for WalkCases<'_> {
    fn replay(&mut self, line: &[u8]) -> Result<Option<Replayed>, Unread> {
        let (kind, rest) = split_kind(line);
        if is_part(line) {
            let most = most_numbers(self.numbers.len());
            self.parts.read_part_within(kind, rest, most)?;
        }
        let block = self.parts.block()?;
        if !line.starts_with(b"w") {
            return Ok(None);
        }
        Ok(Some(replay_walk(block, rest, self.numbers, self.space)?))
    }
}

impl<'a> WalkCases<'a> {
    pub fn new(parts: Parts<'a>, numbers: &'a mut [u64], space: &'a mut [u64]) -> Self {
        Self {
            parts,
            numbers,
            space: make_space(space),
        }
    }
}

// Position and count tag of the walk, then the Rust's position and words.
fn replay_walk(
    block: Block<'_>,
    walk: &[u8],
    numbers: &mut [u64],
    space: &mut [u64],
) -> Result<Replayed, Unread> {
    let [position, tag, next, words @ ..] = read_numbers_in(walk, numbers)? else {
        return Err(Unread::NoForm);
    };
    let position = *position as usize;
    let tag = u32::try_from(*tag).or(Err(Unread::NoForm))?;
    let ample = ample_space(block.fields.len() / 3, position);
    let Some((space, _)) = space.split_at_mut_checked(ample) else {
        return Ok(Replayed::Differs);
    };
    Ok(replay_written(
        |lent| group_given(block, position, tag, lent),
        *next as usize,
        words,
        space,
    ))
}

// Five words for each of the 5 N - 2 events that a walk over N fields may have, and ten more.
fn ample_space(rows: usize, position: usize) -> usize {
    match rows.saturating_sub(position) {
        left @ 1..=4096 => 25 * left,
        _ => 10,
    }
}
