// Events of a walk (document 01, 'The events of a walk'), and how they are written. The Rust's
// Visitor (walk.rs) becomes a record that holds its kind as a case with its numbers.
ghost use Rattle.std.specs.Prelude.{◌≡◌, ◌+◌, ◌<◌, ◌^◌};
ghost use Rattle.events.specs.Events.{kind_number, kind_first, kind_second};
ghost use Rattle.events.specs.EventSpace.{put_in};

// What happened, with its numbers: the methods of the Rust's Visitor, then what the message level
// reports (validator.rs).
#[derive(Clone, Copy)]
pub enum Kind {
    // A group instance starts.
    Enter,
    // The count field, at this position, does not hold a count.
    BadCount(u64),
    // A member, of this tag, appears before any delimiter.
    Delim(u32),
    // A tag appears twice in one entry.
    Repeat(u32),
    // An entry ended: its number, from 0, and how many distinct direct members it has.
    Close(u64, u64),
    // The declared count is not the number of entries found.
    Miscount(u64, u64),
    // The group nests past the limit; it is not walked.
    Deep,
    // The group instance ended, well-formed or not, after so many entries.
    Leave(bool, u64),
    // A tag of the message level appears again.
    Twice(u32),
    // A tag has no place at the message level.
    Foreign(u32),
    // A required tag or group of the message level is not there.
    Missing(u32),
}

// An event of the group with this count tag, at this depth; both are 0 for an event of the message
// level.
#[derive(Clone, Copy)]
pub struct Event {
    pub count_tag: u32,
    pub depth: u32,
    pub kind: Kind,
}

// A kind as document 01's three words: the kind's number, a and b.
fn words_of(kind: Kind) -> (u64, u64, u64)
    ensures { result ≡ (kind_number kind, kind_first kind, kind_second kind) }
{
    match kind {
        Kind::Enter => (1, 0, 0),
        Kind::BadCount(position) => (2, position, 0),
        Kind::Delim(tag) => (3, u64::from(tag), 0),
        Kind::Repeat(tag) => (4, u64::from(tag), 0),
        Kind::Close(entry, seen) => (5, entry, seen),
        Kind::Miscount(declared, entries) => (6, declared, entries),
        Kind::Deep => (7, 0, 0),
        Kind::Leave(well_formed, entries) => (8, u64::from(well_formed), entries),
        Kind::Twice(tag) => (9, u64::from(tag), 0),
        Kind::Foreign(tag) => (10, u64::from(tag), 0),
        Kind::Missing(tag) => (11, u64::from(tag), 0),
    }
}

// Writes the event's five words from `at` on if there is room for them, and gives the place after
// them either way: so the words that a walk needs are counted by the same calls, lent no space at
// all.
pub fn put(events: &mut [u64], at: usize, event: Event) -> usize
    requires { at + 5 < 2 ^ 63 }
    ensures outcome { result ≡ at + 5 }
    ensures memory { events.new ≡ put_in events.old at event }
{
    let (number, first, second) = words_of(event.kind);
    let next = at + 5;
    if next <= events.len() {
        // Copied from an array of the five, they went through the stack, which cost a group walk 3%
        // more instructions.
        events[at] = number;
        events[at + 1] = u64::from(event.count_tag);
        events[at + 2] = u64::from(event.depth);
        events[at + 3] = first;
        events[at + 4] = second;
    }
    next
}
