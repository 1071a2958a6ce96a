// The walk of a group and the scan of an entry, which call each other: a call falls on the fields left and the depth left. Ported from walk.rs,
// `walk_group` and `scan_entry`; the Visitor is the event space.
ghost use Rattle.walk_steps.specs.WalkWords.{GroupRead};
ghost use Rattle.group_walk.specs.WalkPromises.{WalkAsks, Walks, ScanAsks, Scans};

use ascending::search::Ascending;
use entry_tags::entry_tags::{EntryTags, WideEntryTags};
use events::event::Kind;
use field_table::field_table::FieldTable;
use layouts::layout_words::Layout;
use walk_steps::group_events::{put_end, put_event, put_repeat, put_start};
use walk_steps::group_steps::{EntryStep, Turn, opening_at, step_at};
use walk_steps::layout_input::{GroupSpec, group_spec};

// The first field behind a group, and the place behind the events' words.
#[derive(Clone, Copy)]
pub struct GroupEnd {
    pub next: usize,
    pub at: usize,
}

// The same for an entry, with its number of distinct direct members and whether one of them repeats.
// No Option: the place and the flag are told of each entry.
#[derive(Clone, Copy)]
pub struct EntryEnd {
    pub next: usize,
    pub at: usize,
    pub seen: u64,
    pub unparseable: bool,
}

// Walks one group instance, starting at its count field at `index`, and returns the index of the first field after the group. `enclosing` lists,
// sorted, the tags the scope around the group accepts. The tags seen in an entry are kept in a set of the level's width.
#[cycle(scan_entry_scan_wide_walk_group)]
pub fn walk_group(
    table: FieldTable<'_>,
    layout: Layout<'_>,
    enclosing: Ascending<'_>,
    group: usize,
    index: usize,
    depth: u32,
    events: &mut [u64],
    at: usize,
) -> GroupEnd
    requires { WalkAsks layout.words.now group index depth at }
    ensures { Walks layout.entry.words.now table.entry.fields.now table.entry.message.now
        enclosing.entry.words.now group index depth events.old events.new at result.at result.next }
{
    if table.len() <= index {
        return GroupEnd { next: index, at };
    }
    let spec = group_spec(layout, group); // with the groups nested in its entries
    let tag = spec.count_tag;
    if 32 < depth {
        let deep = put_event(events, at, tag, depth, Kind::Deep);
        let next = index + 1;
        return GroupEnd { next, at: deep };
    }
    let declared = table.count_at(index);
    let mut to = put_start(events, at, tag, depth, index, declared);
    let mut cursor = index + 1;
    let mut entries: u64 = 0;
    let mut unparseable = false;
    // no `for`, here and in the scans: an entry and a nested group move the cursor over their fields
    loop {
        match opening_at(
            table.fields,
            spec.members,
            enclosing,
            spec.delimiter,
            declared,
            entries,
            cursor,
        ) {
            Turn::Over => break,
            Turn::Entry => {}
            Turn::Lead(member) => {
                to = put_event(events, to, tag, depth, Kind::Delim(member));
                unparseable = true;
            }
        }
        if spec.members.words.len() <= 256 {
            let entry = scan_entry(table, layout, spec, group, cursor, depth, events, to);
            let close = Kind::Close(entries, entry.seen);
            to = put_event(events, entry.at, tag, depth, close);
            cursor = entry.next;
            unparseable |= entry.unparseable; // by each entry
            entries += 1;
        } else {
            let entry = scan_wide(table, layout, spec, group, cursor, depth, events, to);
            let close = Kind::Close(entries, entry.seen);
            to = put_event(events, entry.at, tag, depth, close);
            cursor = entry.next;
            unparseable |= entry.unparseable;
            entries += 1;
        }
    }
    let past = put_end(events, to, tag, depth, declared, unparseable, entries);
    GroupEnd {
        next: cursor,
        at: past,
    }
}

// Consumes one entry starting at `start`: its own fields, and the runs of the groups nested in it. Stops at the next delimiter (the next entry) or
// at the first field that is not a member (the end of the group). For a level of up to 256 members.
#[cycle(scan_entry_scan_wide_walk_group)]
fn scan_entry(
    table: FieldTable<'_>,
    layout: Layout<'_>,
    spec: GroupSpec<'_>,
    group: usize,
    start: usize,
    depth: u32,
    events: &mut [u64],
    at: usize,
) -> EntryEnd
    requires asks { ScanAsks layout.words.now table.fields.now table.message.now
        group start depth at 256 }
    requires spec { GroupRead layout.words.now group spec.count_tag spec.delimiter
        spec.members.words.now spec.tags.words.now spec.first }
    ensures { Scans layout.entry.words.now table.entry.fields.now table.entry.message.now
        group start depth events.old events.new at result.at result.next result.seen
        result.unparseable }
{
    let tag = spec.count_tag;
    let mut seen = EntryTags::new();
    let mut cursor = start;
    let mut unparseable = false;
    let mut to = at;
    loop {
        match step_at(table.fields, spec, start, cursor) {
            EntryStep::Stop => break,
            EntryStep::Plain(rank, member) => {
                let (with, fresh) = seen.insert_rank(rank);
                seen = with;
                to = put_repeat(events, to, tag, depth, member, fresh);
                unparseable |= !fresh;
                cursor += 1;
            }
            EntryStep::Nested(rank, member, inner) => {
                let (with, fresh) = seen.insert_rank(rank);
                seen = with;
                to = put_repeat(events, to, tag, depth, member, fresh);
                unparseable |= !fresh; // by no nested fault
                let below = depth + 1; // a nested group is one deeper
                let nested = walk_group(
                    table,
                    layout,
                    spec.members,
                    inner,
                    cursor,
                    below,
                    events,
                    to,
                );
                to = nested.at;
                cursor = nested.next;
            }
        }
    }
    let count = seen.close(spec.members.words.len());
    EntryEnd {
        next: cursor,
        at: to,
        seen: count,
        unparseable,
    }
}

// As `scan_entry`, for a wider level: only the set differs. It stays a function of its own, since the
// three call each other, and a cycle of calls gets no proof where one of them is generic.
#[cycle(scan_entry_scan_wide_walk_group)]
fn scan_wide(
    table: FieldTable<'_>,
    layout: Layout<'_>,
    spec: GroupSpec<'_>,
    group: usize,
    start: usize,
    depth: u32,
    events: &mut [u64],
    at: usize,
) -> EntryEnd
    requires asks { ScanAsks layout.words.now table.fields.now table.message.now
        group start depth at 8192 }
    requires spec { GroupRead layout.words.now group spec.count_tag spec.delimiter
        spec.members.words.now spec.tags.words.now spec.first }
    ensures { Scans layout.entry.words.now table.entry.fields.now table.entry.message.now
        group start depth events.old events.new at result.at result.next result.seen
        result.unparseable }
{
    let tag = spec.count_tag;
    let mut seen = WideEntryTags::new();
    let mut cursor = start;
    let mut unparseable = false;
    let mut to = at;
    loop {
        match step_at(table.fields, spec, start, cursor) {
            EntryStep::Stop => break,
            EntryStep::Plain(rank, member) => {
                let (with, fresh) = seen.insert_rank(rank);
                seen = with;
                to = put_repeat(events, to, tag, depth, member, fresh);
                unparseable |= !fresh;
                cursor += 1;
            }
            EntryStep::Nested(rank, member, inner) => {
                let (with, fresh) = seen.insert_rank(rank);
                seen = with;
                to = put_repeat(events, to, tag, depth, member, fresh);
                unparseable |= !fresh;
                let below = depth + 1;
                let nested = walk_group(
                    table,
                    layout,
                    spec.members,
                    inner,
                    cursor,
                    below,
                    events,
                    to,
                );
                to = nested.at;
                cursor = nested.next;
            }
        }
    }
    let count = seen.close(spec.members.words.len());
    EntryEnd {
        next: cursor,
        at: to,
        seen: count,
        unparseable,
    }
}
