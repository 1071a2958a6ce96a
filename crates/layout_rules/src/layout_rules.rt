// The first broken rule of a layout text, in the order of its `end` lines: a block is looked at where it closes.
ghost use Rattle.std.specs.Prelude.{◌≡◌, [], ◌∷◌, ◌+◌, ◌*◌, ◌<◌, ◌≤◌, length};
ghost use Rattle.ascending.specs.Search.{StrictlyAscending};
ghost use Rattle.layouts.specs.LayoutRules.{◌∈ᵇ◌, are_among};
ghost use Rattle.layout_text.specs.LayoutOfText.{layout_of};
ghost use Rattle.layout_rules.specs.FirstBroken.{first_broken};
ghost use Rattle.layout_rules.specs.OpenBlocks.{group_broken, level_broken};

use crate::stack::Stack;
use ascending::search::{binary_search, is_strictly_ascending};
use layout_text::layout_text::LayoutText;
use layout_text::level_line::{LevelLine, LevelLines};

// A block that is open, and how many members and count tags the open levels around it have.
#[derive(Clone, Copy)]
pub struct OpenBlock {
    pub count: u32,
    pub delimiter: u32,
    pub members: usize,
    pub tags: usize,
}

const NO_BLOCK: OpenBlock = OpenBlock {
    count: 0,
    delimiter: 0,
    members: 0,
    tags: 0,
};

// Whether the tag is one of the members, which ascend.
fn is_member(members: &[u32], tag: u32) -> bool
    requires { StrictlyAscending members.now }
    ensures { result ≡ (tag ∈ᵇ members.now) }
{
    binary_search(members, tag).is_some()
}

// Whether each of the tags is one of the members, which ascend.
fn are_among(members: &[u32], tags: &[u32]) -> bool
    requires { StrictlyAscending members.now }
    ensures { result ≡ are_among members.now tags.now }
{
    tags.iter().all(|tag| is_member(members, *tag))
}

// The lowest of rules 1 to 4 that a group breaks.
fn group_broken(members: &[u32], delimiter: u32, tags: &[u32], count: u32) -> Option<(u32, u32)>
    ensures { result ≡ group_broken members.now delimiter tags.now count }
{
    if !is_strictly_ascending(members) {
        return Some((1, count));
    }
    if !is_member(members, delimiter) {
        return Some((2, count));
    }
    if !is_strictly_ascending(tags) {
        return Some((3, count));
    }
    if !are_among(members, tags) {
        return Some((4, count));
    }
    None
}

// The lowest of rules 5 to 7 that the top breaks, by its members and the count tags of its groups.
fn top_broken(top: &[u32], counts: &[u32]) -> Option<(u32, u32)>
    ensures { result ≡ level_broken top.now counts.now }
{
    if !is_strictly_ascending(counts) {
        return Some((5, 0));
    }
    if !is_strictly_ascending(top) {
        return Some((6, 0));
    }
    if !are_among(top, counts) {
        return Some((7, 0));
    }
    None
}

// The first broken rule of an accepted layout text: groups in the order of their `end` lines, the top last, and of each the lowest rule.
pub fn first_broken(layout: LayoutText<'_>) -> Option<(u32, u32)>
    ensures { result ≡ first_broken (layout_of layout.entry.text.bytes.now) }
{
    // a member line has 8 bytes at least, a block 12, and at most 40 blocks are open
    let mut members: Stack<u32, 8192> = Stack::new(0);
    let mut tags: Stack<u32, 5461> = Stack::new(0);
    let mut blocks: Stack<OpenBlock, 40> = Stack::new(NO_BLOCK);
    for line in LevelLines::new(layout.text.bytes, 0) {
        match line {
            LevelLine::MemberLine(tag) => members.push(tag),
            LevelLine::GroupLine(count, delimiter, _) => blocks.push(OpenBlock {
                count,
                delimiter,
                members: members.len(),
                tags: tags.len(),
            }),
            LevelLine::EndLine => {
                let Some(block) = blocks.pop() else {
                    continue;
                };
                let own_members = members.after(block.members);
                let own_tags = tags.after(block.tags);
                let broken = group_broken(own_members, block.delimiter, own_tags, block.count);
                if broken.is_some() {
                    return broken;
                }
                members.truncate(block.members);
                tags.truncate(block.tags);
                tags.push(block.count);
            }
            _ => {}
        }
    }
    top_broken(members.as_slice(), tags.as_slice())
}
