// The walk of a message on lent words: a call that refuses what it cannot walk, and else writes the events of the walk. Ported from validator.rs,
// `Validator::validate`.
ghost use Rattle.std.specs.Prelude.{◌≡◌};
ghost use Rattle.field_table.specs.FieldTable.{row_count};
ghost use Rattle.events.specs.EventSpaceLaws.{Wrote};
ghost use Rattle.validator.specs.CallPromises.{most_words};
ghost use Rattle.validator.specs.MessageCall.{walk_of, space_answer, space_with, walked_of, events_in};

use definitions::defined_tags::defined_tags;
use dictionary::dictionary::Dictionary;
use field_table::field_table::FieldTable;
use layout_check::layout_check::layout_of;
use layouts::layout_words::Layout;
use message_level::missing::put_missing;
use message_level::seen_tags::{DefinedTags, SeenSet};
use message_walk::message_walk::walk_fields;
use refusals::refusal::Refusal;

// As many words as a walk can need: five for each of 5 N events of the loop over N fields, for each required tag and for each group of the top.
fn most_words(layout: Layout<'_>, table: FieldTable<'_>) -> usize
    ensures { result ≡ most_words layout.entry.words.now (row_count table.entry.fields.now) }
{
    let rows = table.len();
    let required = layout.required_at(0).len();
    let groups = layout.count_tags_at(0).words.len();
    5 * (5 * rows + required + groups)
}

// The walk once the lent words are accepted: the loop, then what is missing. Gives the place behind the events' words.
fn walk_level(
    dictionary: Dictionary<'_>,
    layout: Layout<'_>,
    table: FieldTable<'_>,
    events: &mut [u64],
) -> usize
    ensures { Wrote events.old events.new 0 result
        (walk_of dictionary.entry.words.now layout.entry.words.now table.entry.fields.now table.entry.message.now) }
{
    let defined = DefinedTags::new(defined_tags(dictionary));
    let mut words = [0u64; 171]; // no heap: a bit for each of 10,922 defined tags
    let at = walk_fields(&defined, layout, table, &mut words, events);
    let seen = SeenSet {
        defined,
        words: &words,
    };
    put_missing(&seen, layout, events, at)
}

// The walk where the event space may be short: a pass that is lent no space counts the words that are needed.
fn count_first(
    dictionary: Dictionary<'_>,
    layout: Layout<'_>,
    table: FieldTable<'_>,
    events: &mut [u64],
) -> Result<usize, Refusal>
    ensures outcome { result ≡ space_answer
        (walk_of dictionary.entry.words.now layout.entry.words.now table.entry.fields.now table.entry.message.now) events.old }
    ensures memory { events.new ≡ space_with
        (walk_of dictionary.entry.words.now layout.entry.words.now table.entry.fields.now table.entry.message.now) events.old }
{
    let needed = walk_level(dictionary, layout, table, &mut events[..0]);
    if events.len() < needed {
        return Err(Refusal::SpaceShort(needed as u64));
    }
    let words = walk_level(dictionary, layout, table, events);
    Ok(words)
}

// The walk once the lent words are accepted: one pass where the event space holds whatever it may need.
fn walk_accepted(
    dictionary: Dictionary<'_>,
    layout: Layout<'_>,
    table: FieldTable<'_>,
    events: &mut [u64],
) -> Result<usize, Refusal>
    ensures outcome { result ≡ space_answer
        (walk_of dictionary.entry.words.now layout.entry.words.now table.entry.fields.now table.entry.message.now) events.old }
    ensures memory { events.new ≡ space_with
        (walk_of dictionary.entry.words.now layout.entry.words.now table.entry.fields.now table.entry.message.now) events.old }
{
    let most = most_words(layout, table);
    if events.len() < most {
        return count_first(dictionary, layout, table, events);
    }
    let words = walk_level(dictionary, layout, table, events);
    Ok(words)
}

// Walks the fields of a message from the first on, and writes the events of the walk, five words each. Refuses, in this order: dictionary words, layout words
// and field tables that are not accepted, and an event space that is short; then nothing is written.
pub fn walk_message(
    dictionary: &[u32],
    layout: &[u32],
    fields: &[u32],
    message: &[u8],
    events: &mut [u64],
) -> Result<usize, Refusal>
    ensures outcome { result ≡ walked_of
        dictionary.now layout.now fields.now message.now events.old }
    ensures memory { events.new ≡ events_in
        dictionary.now layout.now fields.now message.now events.old }
{
    let Some(dictionary) = Dictionary::new(dictionary) else {
        return Err(Refusal::UnknownForm(0));
    };
    let layout = layout_of(layout).ok_or(Refusal::RuleBroken(0, 0))?;
    let table = FieldTable::new(fields, message)?;
    walk_accepted(dictionary, layout, table, events)
}
