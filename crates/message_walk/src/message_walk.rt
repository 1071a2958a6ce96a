// The loop over the fields of the message level: a defined tag that begins a top group is walked, any other must be a member of the top. Ported from
// validator.rs, the loop of `Validator::validate`; the ErrorSink is the event space.
ghost use Rattle.std.specs.Prelude.{◌≡◌, not, List, ℕ, ◌+◌, ◌<◌, ◌^◌};
ghost use Rattle.entry_tags.specs.EntryTags.{no_ranks};
ghost use Rattle.events.specs.EventSpaceLaws.{Wrote};
ghost use Rattle.walk_steps.specs.WalkWords.{top_members};
ghost use Rattle.message_level.specs.MessageWalk.{twice_if, foreign_unless};
ghost use Rattle.message_walk.specs.MessagePromises.{PlaceAsks, Placed, TurnAsks, Turned, Walked};
ghost use Rattle.message_level.specs.SeenTags.{seen_words, SeenTags};

use entry_tags::ranks::insert;
use events::event::Kind;
use field_table::field_table::FieldTable;
use group_walk::group_walk::{GroupEnd, walk_group};
use layouts::layout_words::Layout;
use message_level::seen_tags::DefinedTags;
use walk_steps::group_events::put_event;
use walk_steps::layout_input::top_group;

// Twice, where the tag was seen before. The Rust's DuplicateTag.
fn put_twice(events: &mut [u64], at: usize, tag: u32, fresh: bool) -> usize
    requires { at + 5 < 2 ^ 63 }
    ensures { Wrote events.old events.new at result (twice_if (not fresh) tag) }
{
    if fresh {
        return at;
    }
    put_event(events, at, 0, 0, Kind::Twice(tag))
}

// Foreign, where the tag has no place at the message level. The Rust's FieldNotAllowedForMessage.
fn put_foreign(layout: Layout<'_>, events: &mut [u64], at: usize, tag: u32) -> usize
    requires { at + 5 < 2 ^ 63 }
    ensures { Wrote events.old events.new at result
        (foreign_unless (top_members layout.entry.words.now tag) tag) }
{
    let top = layout.members_at(0);
    let Some(_) = top.binary_search(tag) else {
        return put_event(events, at, 0, 0, Kind::Foreign(tag));
    };
    at
}

// The field at `index`, of this defined tag: the walk of the top group that it begins, or foreign.
fn walk_place(
    layout: Layout<'_>,
    table: FieldTable<'_>,
    index: usize,
    tag: u32,
    events: &mut [u64],
    at: usize,
) -> GroupEnd
    requires { PlaceAsks table.fields.now index tag at }
    ensures { Placed layout.entry.words.now table.entry.fields.now table.entry.message.now index tag
        events.old events.new at result.at result.next }
{
    let Some(group) = top_group(layout, tag) else {
        let past = put_foreign(layout, events, at, tag);
        let next = index + 1;
        return GroupEnd { next, at: past };
    };
    let top = layout.members_at(0);
    walk_group(table, layout, top, group, index, 0, events, at)
}

// A turn of the loop, at the field at `index`: an undefined tag is skipped.
fn walk_field(
    defined: &DefinedTags<'_>,
    layout: Layout<'_>,
    table: FieldTable<'_>,
    index: usize,
    seen: &mut [u64],
    events: &mut [u64],
    at: usize,
) -> GroupEnd
    requires { TurnAsks table.fields.now seen.old index at }
    ensures { (tags : List ℕ) → SeenTags defined.now.tags.words.now seen.old tags
        → Turned defined.now.tags.words.now layout.entry.words.now table.entry.fields.now
        table.entry.message.now tags index seen.new events.old events.new at result.at result.next }
{
    let tag = table.tag_at(index);
    let Some(rank) = defined.tags.binary_search(tag) else {
        let next = index + 1;
        return GroupEnd { next, at };
    };
    let fresh = insert(seen, rank);
    let to = put_twice(events, at, tag, fresh);
    walk_place(layout, table, index, tag, events, to)
}

// The loop. Gives the place behind the events' words; `seen` holds the tags seen.
pub fn walk_fields(
    defined: &DefinedTags<'_>,
    layout: Layout<'_>,
    table: FieldTable<'_>,
    seen: &mut [u64],
    events: &mut [u64],
) -> usize
    requires { seen.old ≡ no_ranks seen_words }
    ensures { Walked defined.now.tags.words.now layout.entry.words.now table.entry.fields.now
        table.entry.message.now seen.new events.old events.new result }
{
    let rows = table.len();
    let mut index = 0; // not a `for`: the walk of a group passes over its fields
    let mut at = 0;
    while index < rows {
        let end = walk_field(defined, layout, table, index, seen, events, at);
        at = end.at;
        index = end.next;
    }
    at
}
