// The events that a walk writes at one place: at the start of a group, at a member of an entry, at the ends. Ported from walk.rs, the calls of the
// Visitor in `walk_group` and `scan_entry`.
ghost use Rattle.std.specs.Prelude.{◌≡◌, [], ◌∷◌, ◌+◌, ◌<◌, ◌^◌};
ghost use Rattle.events.specs.EventSpaceLaws.{Wrote};
ghost use Rattle.walk_steps.specs.WrittenEvents.{tag_event, begun_by, repeat_by, left_by};

use events::event::{Event, Kind, put};

// One event of the group with this count tag.
// No struct of `events` and `at`: `Wrote events.old events.new at result` would name the same four.
pub fn put_event(events: &mut [u64], at: usize, tag: u32, depth: u32, kind: Kind) -> usize
    requires { at + 5 < 2 ^ 63 }
    ensures { Wrote events.old events.new at result (tag_event tag depth kind ∷ []) }
{
    put(
        events,
        at,
        Event {
            count_tag: tag,
            depth,
            kind,
        },
    )
}

// Enter, and badcount where the count field, at `index`, declares nothing.
pub fn put_start(
    events: &mut [u64],
    at: usize,
    tag: u32,
    depth: u32,
    index: usize,
    declared: Option<u64>,
) -> usize
    requires { at + 10 < 2 ^ 63 }
    ensures { Wrote events.old events.new at result (begun_by tag depth index declared) }
{
    let next = put_event(events, at, tag, depth, Kind::Enter);
    let Some(_) = declared else {
        return put_event(events, next, tag, depth, Kind::BadCount(index as u64));
    };
    next
}

// Repeat, where a member is not fresh in its entry.
pub fn put_repeat(
    events: &mut [u64],
    at: usize,
    tag: u32,
    depth: u32,
    member: u32,
    fresh: bool,
) -> usize
    requires { at + 5 < 2 ^ 63 }
    ensures { Wrote events.old events.new at result (repeat_by tag depth member fresh) }
{
    if fresh {
        return at;
    }
    put_event(events, at, tag, depth, Kind::Repeat(member))
}

// Miscount where it is due, and leave.
pub fn put_end(
    events: &mut [u64],
    at: usize,
    tag: u32,
    depth: u32,
    declared: Option<u64>,
    unparseable: bool,
    entries: u64,
) -> usize
    requires { at + 10 < 2 ^ 63 }
    ensures { Wrote events.old events.new at result (left_by tag depth declared unparseable entries) }
{
    let Some(number) = declared else {
        return put_event(events, at, tag, depth, Kind::Leave(false, entries));
    };
    if number == entries {
        return put_event(events, at, tag, depth, Kind::Leave(!unparseable, entries));
    }
    if unparseable {
        return put_event(events, at, tag, depth, Kind::Leave(false, entries));
    }
    let next = put_event(events, at, tag, depth, Kind::Miscount(number, entries));
    put_event(events, next, tag, depth, Kind::Leave(false, entries))
}
