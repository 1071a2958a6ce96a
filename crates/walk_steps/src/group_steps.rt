// The decisions of a group walk, each with an answer of its own: what a field is to an entry, and to a group. Ported from walk.rs, `walk_group` and
// `scan_entry`.
ghost use Rattle.std.specs.Prelude.{◌≡◌, eqb};
ghost use Rattle.ascending.specs.Search.{rank_in};
ghost use Rattle.layouts.specs.LayoutRules.{◌∈ᵇ◌};
ghost use Rattle.group_reading.specs.GroupSteps.{ends_group};
ghost use Rattle.walk_steps.specs.WalkWords.{among, number_found};
ghost use Rattle.walk_steps.specs.WordSteps.{member_step, entry_step, lead_by, turn_at};

use crate::layout_input::GroupSpec;
use ascending::search::Ascending;
use field_table::field_table::{row_count, tag_at};

// What the field at a cursor is to an entry.
#[derive(Clone, Copy)]
pub enum EntryStep {
    // Not the entry's: the entry ends before it.
    Stop,
    // A field of the entry, with its rank among the members and its tag.
    Plain(usize, u32),
    // The count field of a nested group: rank, tag, and the group's number.
    Nested(usize, u32, usize),
}

// What the field at a cursor is to a group.
#[derive(Clone, Copy)]
pub enum Turn {
    // Not the group's: the group ends before it.
    Over,
    // The delimiter of another entry.
    Entry,
    // A member ahead of any delimiter, with its tag.
    Lead(u32),
}

// A field that is taken: plain, or the count field of a nested group.
fn taken_step(spec: GroupSpec<'_>, rank: usize, tag: u32) -> EntryStep
    ensures { result ≡ member_step rank tag
        (number_found spec.entry.first (rank_in spec.entry.tags.words.now tag)) }
{
    let Some(place) = spec.tags.binary_search(tag) else {
        return EntryStep::Plain(rank, tag);
    };
    EntryStep::Nested(rank, tag, spec.first + place)
}

// What the field at the cursor is to an entry that begins at `start`. "One search answers both \"is it a member\" and its bitset slot."
pub fn step_at(fields: &[u32], spec: GroupSpec<'_>, start: usize, cursor: usize) -> EntryStep
    ensures { result ≡ entry_step fields.now spec.entry.members.words.now
        spec.entry.tags.words.now spec.entry.first spec.entry.delimiter start cursor }
{
    if row_count(fields) <= cursor {
        return EntryStep::Stop;
    }
    let tag = tag_at(fields, cursor);
    let Some(rank) = spec.members.binary_search(tag) else {
        return EntryStep::Stop;
    };
    if cursor == start {
        return taken_step(spec, rank, tag);
    }
    if tag == spec.delimiter {
        return EntryStep::Stop;
    }
    taken_step(spec, rank, tag)
}

// Whether a field after the declared entries belongs to the enclosing scope rather than to this group.
fn ends_group(declared: Option<u64>, entries: u64, enclosing: Ascending<'_>, tag: u32) -> bool
    ensures { result ≡ ends_group declared entries (among enclosing.entry.words.now) tag }
{
    let Some(number) = declared else {
        return false;
    };
    if number != entries {
        return false;
    }
    let Some(_) = enclosing.binary_search(tag) else {
        return false; // the level around lacks the tag
    };
    true
}

// A field other than the delimiter: a member ahead of any delimiter, or not the group's.
fn lead_at(
    members: Ascending<'_>,
    enclosing: Ascending<'_>,
    declared: Option<u64>,
    entries: u64,
    tag: u32,
) -> Turn
    ensures { result ≡ lead_by (eqb entries 0) (tag ∈ᵇ members.entry.words.now)
        (ends_group declared entries (among enclosing.entry.words.now) tag) tag }
{
    if entries != 0 {
        return Turn::Over;
    }
    let Some(_) = members.binary_search(tag) else {
        return Turn::Over;
    };
    if ends_group(declared, entries, enclosing, tag) {
        return Turn::Over;
    }
    Turn::Lead(tag)
}

// What the field at the cursor is to a group that has so many entries.
pub fn opening_at(
    fields: &[u32],
    members: Ascending<'_>,
    enclosing: Ascending<'_>,
    delimiter: u32,
    declared: Option<u64>,
    entries: u64,
    cursor: usize,
) -> Turn
    ensures { result ≡ turn_at fields.now members.entry.words.now
        enclosing.entry.words.now delimiter declared entries cursor }
{
    if row_count(fields) <= cursor {
        return Turn::Over;
    }
    let tag = tag_at(fields, cursor);
    if tag != delimiter {
        return lead_at(members, enclosing, declared, entries, tag);
    }
    if ends_group(declared, entries, enclosing, tag) {
        return Turn::Over;
    }
    Turn::Entry
}
