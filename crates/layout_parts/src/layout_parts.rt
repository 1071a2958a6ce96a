// The parts of the layout that an accepted layout text tells: how many there are, and the parts themselves, gathered level by level as
// `put_layout` of the crate layouts takes them.
ghost use Rattle.std.specs.Prelude.{◌≡◌, [], ◌∷◌, ◌+◌, ◌*◌, ◌<◌, ◌≤◌, length};
ghost use Rattle.std.proofs.lemmas.List.Edits.{sets};
ghost use Rattle.layout_text.specs.LevelLines.{lines_at};
ghost use Rattle.layout_parts.specs.LayoutParts.{tag_of, own_tags, behind_tags, blocks_in, member_count, required_count, group_count};
ghost use Rattle.layout_parts.specs.PartsLoops.{flag_word, GroupsPut};
ghost use Rattle.layout_parts.specs.GatherLoop.{LevelRoom, LevelPut, GatherRoom, GatheredIn};

use layout_text::layout_text::LayoutText;
use layout_text::level_line::{LevelLine, LevelLines};
use lines::text::Text;

// How many members, required tags and groups there are.
#[derive(Clone, Copy)]
pub struct Parts {
    pub members: usize,
    pub required: usize,
    pub groups: usize,
}

// How many tags stand in a row, and where the lines after theirs begin.
#[derive(Clone, Copy)]
pub struct TakenTags {
    pub count: usize,
    pub next: usize,
}

// How many member, required and group lines the text has. A block has 12 bytes at least.
pub fn count_parts(layout: LayoutText<'_>) -> Parts
    ensures members { result.members ≡ member_count (lines_at layout.entry.text.bytes.now 0) }
    ensures required { result.required ≡ required_count (lines_at layout.entry.text.bytes.now 0) }
    ensures groups { (result.groups ≡ group_count (lines_at layout.entry.text.bytes.now 0)) × (12 * result.groups ≤ length layout.entry.text.bytes.now) }
{
    let mut parts = Parts {
        members: 0,
        required: 0,
        groups: 0,
    };
    for line in LevelLines::new(layout.text.bytes, 0) {
        match line {
            LevelLine::MemberLine(_) => parts.members += 1,
            LevelLine::RequiredLine(_) => parts.required += 1,
            LevelLine::GroupLine(_, _, _) => parts.groups += 1,
            _ => {}
        }
    }
    parts
}

// The tag of a required line, or else of a member line.
fn tag_of(line: LevelLine, required: bool) -> Option<u32>
    ensures { result ≡ tag_of required line }
{
    match line {
        LevelLine::MemberLine(tag) => (!required).then_some(tag),
        LevelLine::RequiredLine(tag) => required.then_some(tag),
        _ => None,
    }
}

// Puts the tags of the lines of one kind that stand at `first` after the `count` tags of the row. No
// `for`: the place of the first other line is handed on.
fn put_tags(text: &[u8], first: usize, required: bool, tags: &mut [u32], count: usize) -> TakenTags
    requires { (first ≤ length text.now) × (count + length (own_tags required (lines_at text.now first)) ≤ length tags.old) }
    ensures tags { tags.new ≡ sets tags.old count (own_tags required (lines_at text.now first)) }
    ensures count { result.count ≡ count + length (own_tags required (lines_at text.now first)) }
    ensures next { (result.next ≤ length text.now) × (lines_at text.now result.next ≡ behind_tags required (lines_at text.now first)) }
{
    let mut lines = LevelLines::new(text, first);
    let mut next = first;
    let mut index = 0;
    while let Some(line) = lines.next() {
        let Some(tag) = tag_of(line, required) else {
            break;
        };
        tags[count + index] = tag;
        index += 1;
        next = lines.place();
    }
    TakenTags {
        count: count + index,
        next,
    }
}

// The first words of the row of a group's entry level.
fn put_group(rows: &mut [u32], group: usize, count: u32, delimiter: u32, required: bool)
    requires { 6 * group + 12 ≤ length rows.old }
    ensures { rows.new ≡ sets rows.old (6 * group + 6) (count ∷ delimiter ∷ flag_word required ∷ []) }
{
    let first = 6 * group + 6;
    rows[first..first + 3].copy_from_slice(&[count, delimiter, u32::from(required)]);
}

// The last words of the row of a level.
fn put_ends(rows: &mut [u32], level: usize, parts: Parts)
    requires { (6 * level + 6 ≤ length rows.old) × (parts.members < 4294967296) × (parts.required < 4294967296) × (parts.groups < 4294967296) }
    ensures { rows.new ≡ sets rows.old (6 * level + 3) (parts.members ∷ parts.required ∷ parts.groups ∷ []) }
{
    let first = 6 * level + 3;
    let ends = [
        parts.members as u32,
        parts.required as u32,
        parts.groups as u32,
    ];
    rows[first..first + 3].copy_from_slice(&ends);
}

// Puts the rows of the blocks that begin at `first` after those of `groups` others, and where the
// lines in each block begin. No `for`: a block's place is that of the iterator after its first line.
fn put_groups(
    text: Text<'_>,
    first: usize,
    rows: &mut [u32],
    starts: &mut [u32],
    groups: usize,
) -> usize
    requires { (first ≤ length text.bytes.now) × (groups + length (blocks_in 0 (lines_at text.bytes.now first)) ≤ length starts.old) × (6 * (groups + length (blocks_in 0 (lines_at text.bytes.now first))) + 6 ≤ length rows.old) }
    ensures { GroupsPut text.entry.bytes.now rows.old starts.old groups (blocks_in 0 (lines_at text.entry.bytes.now first)) rows.new starts.new result }
{
    let mut depth: usize = 0;
    let mut count = groups;
    let mut lines = LevelLines::new(text.bytes, first);
    while let Some(line) = lines.next() {
        match line {
            LevelLine::GroupLine(tag, delimiter, required) => {
                if depth == 0 {
                    put_group(rows, count, tag, delimiter, required);
                    starts[count] = lines.place() as u32;
                    count += 1;
                    depth = 1;
                } else {
                    depth += 1;
                }
            }
            LevelLine::EndLine => {
                if depth == 0 {
                    return count;
                }
                depth -= 1;
            }
            _ => {}
        }
    }
    count
}

// Puts the parts of the level whose lines begin at `first` after those that were put before, and its ends into its row.
fn gather_level(
    text: Text<'_>,
    first: usize,
    level: usize,
    members: &mut [u32],
    required: &mut [u32],
    rows: &mut [u32],
    starts: &mut [u32],
    parts: Parts,
) -> Parts
    requires { LevelRoom text.bytes.now first level members.old required.old rows.old starts.old parts }
    ensures { LevelPut text.entry.bytes.now first level members.old required.old rows.old starts.old parts members.new required.new rows.new starts.new result }
{
    let own = put_tags(text.bytes, first, false, members, parts.members);
    let needed = put_tags(text.bytes, own.next, true, required, parts.required);
    let groups = put_groups(text, needed.next, rows, starts, parts.groups);
    let gathered = Parts {
        members: own.count,
        required: needed.count,
        groups,
    };
    put_ends(rows, level, gathered);
    gathered
}

// Gathers the parts of the layout that the text tells, level by level: the top, then the entry level of each group in the order in which the
// groups were put.
pub fn gather_layout(
    text: Text<'_>,
    members: &mut [u32],
    required: &mut [u32],
    rows: &mut [u32],
    starts: &mut [u32],
) -> Parts
    requires { GatherRoom text.bytes.now members.old required.old rows.old starts.old }
    ensures { GatheredIn text.entry.bytes.now members.new required.new rows.new result }
{
    let none = Parts {
        members: 0,
        required: 0,
        groups: 0,
    };
    let mut parts = gather_level(text, 0, 0, members, required, rows, starts, none);
    // no `for`: the groups grow while their levels are gathered
    let mut number = 0;
    while number < parts.groups {
        let first = starts[number] as usize;
        parts = gather_level(
            text,
            first,
            number + 1,
            members,
            required,
            rows,
            starts,
            parts,
        );
        number += 1;
    }
    parts
}
