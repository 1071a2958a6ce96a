// The walk of a top group on lent words: a call that refuses what it cannot walk, and else writes the events of the walk. Ported from walk.rs,
// `walk_group` with a recording visitor.
ghost use Rattle.std.specs.Prelude.{◌≡◌, ◌<◌};
ghost use Rattle.layouts.specs.LayoutWords.{group_count};
ghost use Rattle.field_table.specs.FieldTable.{row_count};
ghost use Rattle.walk_steps.specs.WalkWords.{group_of};
ghost use Rattle.walk.specs.WalkCall.{top_walk, space_answer, space_with, group_answer, group_space, walked_of, events_in};
ghost use Rattle.group_walk.specs.WalkPromises.{most_words};

use field_table::field_table::FieldTable;
use layout_check::layout_check::layout_of;
use layouts::layout_words::Layout;
use refusals::refusal::Refusal;
use walk_steps::layout_input::top_group;

// What the call answers.
#[derive(Clone, Copy)]
pub struct Walked {
    pub position: usize,
    pub words: usize,
}

// As many words as a walk from the position on can need: five for each of 5 N - 2 events, where N fields are left.
fn most_words(table: FieldTable<'_>, position: usize) -> usize
    ensures { result ≡ most_words (row_count table.entry.fields.now) position }
{
    let rows = table.len();
    if rows <= position {
        return 0;
    }
    let left = rows - position;
    5 * (5 * left - 2)
}

// The walk where the event space may be short: a pass that is lent no space counts the words that are needed.
fn count_first(
    table: FieldTable<'_>,
    layout: Layout<'_>,
    position: usize,
    group: usize,
    events: &mut [u64],
) -> Result<Walked, Refusal>
    requires { group < group_count layout.words.now }
    ensures outcome { result ≡ space_answer (top_walk layout.entry.words.now
        table.entry.fields.now table.entry.message.now group position) events.old }
    ensures memory { events.new ≡ space_with (top_walk layout.entry.words.now
        table.entry.fields.now table.entry.message.now group position) events.old }
{
    let top = layout.members_at(0);
    let counted = group_walk::group_walk::walk_group(
        table,
        layout,
        top,
        group,
        position,
        0,
        &mut events[..0],
        0,
    );
    let needed = counted.at;
    if events.len() < needed {
        return Err(Refusal::SpaceShort(needed as u64));
    }
    let end = group_walk::group_walk::walk_group(table, layout, top, group, position, 0, events, 0);
    Ok(Walked {
        position: end.next,
        words: end.at,
    })
}

// The walk of a top group, once the lent words are accepted: one pass where the event space holds whatever it may need.
fn walk_top(
    table: FieldTable<'_>,
    layout: Layout<'_>,
    position: usize,
    tag: u32,
    events: &mut [u64],
) -> Result<Walked, Refusal>
    ensures outcome { result ≡ group_answer layout.entry.words.now table.entry.fields.now
        table.entry.message.now position tag events.old (group_of layout.entry.words.now 0 tag) }
    ensures memory { events.new ≡ group_space layout.entry.words.now table.entry.fields.now
        table.entry.message.now position tag events.old (group_of layout.entry.words.now 0 tag) }
{
    let Some(group) = top_group(layout, tag) else {
        return Err(Refusal::NoSuchGroup(tag));
    };
    let most = most_words(table, position);
    if events.len() < most {
        return count_first(table, layout, position, group, events);
    }
    let top = layout.members_at(0);
    let end = group_walk::group_walk::walk_group(table, layout, top, group, position, 0, events, 0);
    Ok(Walked {
        position: end.next, // the first field after the group
        words: end.at,
    })
}

// Walks the top group with this count tag from the field at `position` on, whatever its tag, and writes the events of the walk, five words each. Refuses,
// in this order: layout words and field tables that are not accepted, a tag of no top group, and an event space that is short; then nothing is written.
pub fn walk_group(
    layout: &[u32],
    fields: &[u32],
    message: &[u8],
    position: usize,
    tag: u32,
    events: &mut [u64],
) -> Result<Walked, Refusal>
    ensures outcome { result ≡ walked_of layout.now fields.now message.now position tag events.old }
    ensures memory { events.new ≡ events_in layout.now fields.now message.now position tag events.old }
{
    let layout = layout_of(layout).ok_or(Refusal::RuleBroken(0, 0))?;
    let table = FieldTable::new(fields, message)?;
    walk_top(table, layout, position, tag, events)
}
