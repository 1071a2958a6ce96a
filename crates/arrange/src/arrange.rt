// From the trace of an expansion to the parts of its layout, level by level in the order of the arrangement: the top, the entries of its
// groups, the entries of theirs, and so on (specs/ArrangeGather.antt). What is gathered is what `put_layout` is lent.
ghost use Rattle.std.specs.Prelude.{◌≡◌, ◌+◌, ◌*◌, ◌-◌, ◌≤◌, ◌<◌, length, take, drop};
ghost use Rattle.ascending.specs.Sort.{sorted};
ghost use Rattle.ascending.specs.Dedup.{deduped};
ghost use Rattle.arrange_level.specs.ArrangeTrace.{own_at, kept_required};
ghost use Rattle.arrange_level.specs.ArrangeGroups.{count_tags, tags_in_order};
ghost use Rattle.arrange_level.specs.ArrangeRows.{RowsPlaced};
ghost use Rattle.arrange.specs.ArrangeGather.{GatherRoom, GatheredSoFar, GatheredIn, LevelKept};
ghost use Rattle.arrange.specs.ArrangeGatherLaws.{closed_row};

use arrange_level::arrange_groups::{open_rows, place_groups};
use arrange_level::arrange_level::{in_order, keep_required, read_level};
use layouts::layout_words::narrow;

// How many levels are gathered and how many are found, and where their members and required tags end.
#[derive(Clone, Copy)]
pub struct Gathering {
    pub level: usize,
    pub levels: usize,
    pub members: usize,
    pub required: usize,
}

// Puts the members from `from` up to `past` in order, and returns where they end.
fn order_members(members: &mut [u32], from: usize, past: usize) -> usize
    requires { (from ≤ past) × (past ≤ length members.old) }
    ensures { LevelKept members.old from (deduped (sorted (take (past - from) (drop from members.old)))) result members.new }
{
    let kept = in_order(&mut members[from..past]);
    from + kept
}

// Puts the required tags from `from` up to `past` in order, those of the level that begins at `first`, and returns where they end.
fn order_required(
    required: &mut [u32],
    from: usize,
    past: usize,
    first: usize,
    delimiter: u32,
) -> usize
    requires { (from ≤ past) × (past ≤ length required.old) }
    ensures { LevelKept required.old from (kept_required first delimiter (take (past - from) (drop from required.old))) result required.new }
{
    let kept = keep_required(&mut required[from..past], first, delimiter);
    from + kept
}

// Puts the groups of the level that begins at `first` in order, in rows after those of so many levels: their count tags, in the order in
// which the groups were added, are the first of `tags`. Returns how many groups stay.
fn order_groups(
    trace: &[u64],
    first: usize,
    rows: &mut [u32],
    levels: usize,
    tags: &mut [u32],
    groups: usize,
) -> usize
    requires { (length trace.now < 4294967296) × (groups ≤ length tags.old) × (take groups tags.old ≡ count_tags (own_at trace.now first).starts) × (6 * (levels + length (tags_in_order (own_at trace.now first).starts)) ≤ length rows.old) }
    ensures outcome { result ≡ length (tags_in_order (own_at trace.now first).starts) }
    ensures memory { RowsPlaced rows.old levels (tags_in_order (own_at trace.now first).starts) (own_at trace.now first).starts rows.new }
{
    let kept = in_order(&mut tags[0..groups]);
    open_rows(rows, levels, &tags[0..kept]);
    if kept == 0 {
        return kept;
    }
    place_groups(trace, first, rows, levels, &tags[0..kept]);
    kept
}

// Closes the row of a level: the delimiter of its group, and how many members, required tags and groups there are up to its end.
// That the numbers fit a word is asked, since they are cast.
fn close_row(
    rows: &mut [u32],
    level: usize,
    delimiter: u32,
    members: usize,
    required: usize,
    groups: usize,
)
    requires { (5 + 6 * level < length rows.old) × (members < 4294967296) × (required < 4294967296) × (groups < 4294967296) }
    ensures { rows.new ≡ closed_row rows.old level delimiter members required groups }
{
    let row = 6 * level;
    rows[1 + row] = delimiter;
    rows[3 + row] = narrow(members);
    rows[4 + row] = narrow(required);
    rows[5 + row] = narrow(groups);
}

// Gathers the next level. Each of its steps fills one or two of the slices that are lent, so a struct of
// them would be taken apart again here.
fn gather_level(
    trace: &[u64],
    members: &mut [u32],
    required: &mut [u32],
    tags: &mut [u32],
    rows: &mut [u32],
    state: Gathering,
) -> Gathering
    requires { GatherRoom trace.now members.old required.old tags.old rows.old × GatheredSoFar trace.now members.old required.old rows.old state × (state.level < state.levels) }
    ensures gathered { GatheredSoFar trace.now members.new required.new rows.new result }
    ensures further { result.level ≡ state.level + 1 }
{
    let first = rows[3 + 6 * state.level] as usize;
    let own = read_level(
        trace,
        first,
        members,
        state.members,
        required,
        state.required,
        tags,
    );
    let member_end = order_members(members, state.members, own.members);
    let required_end = order_required(required, state.required, own.required, first, own.delimiter);
    let kept = order_groups(trace, first, rows, state.levels, tags, own.groups);
    let levels = state.levels + kept;
    close_row(
        rows,
        state.level,
        own.delimiter,
        member_end,
        required_end,
        levels - 1,
    );
    Gathering {
        level: state.level + 1,
        levels,
        members: member_end,
        required: required_end,
    }
}

// Gathers all levels of the trace.
pub fn gather(
    trace: &[u64],
    members: &mut [u32],
    required: &mut [u32],
    tags: &mut [u32],
    rows: &mut [u32],
) -> Gathering
    requires { GatherRoom trace.now members.old required.old tags.old rows.old }
    ensures { GatheredIn trace.now members.new required.new rows.new result }
{
    rows[0] = 0;
    rows[2] = 0;
    rows[3] = 0;
    let mut state = Gathering {
        level: 0,
        levels: 1,
        members: 0,
        required: 0,
    };
    // no `for`: each level that is gathered may add others
    while state.level < state.levels {
        state = gather_level(trace, members, required, tags, rows, state);
    }
    state
}
