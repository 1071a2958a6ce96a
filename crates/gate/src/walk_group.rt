// The walk of a top group on lent words.
ghost use Rattle.std.specs.Prelude.{◌≡◌};
ghost use Rattle.walk.specs.WalkCall.{walked_of, events_in};
ghost use Rattle.outcomes.specs.Answers.{walk_outcome};

use outcomes::outcome::Outcome;
use walk::walk_call::walk_group;

// `words`: how many words of events were written; `extra`: the position of the first field behind the group.
pub fn gate_walk_group(
    layout: &[u32],
    fields: &[u32],
    message: &[u8],
    position: usize,
    count_tag: u32,
    events: &mut [u64],
) -> Outcome
    ensures outcome { result ≡ walk_outcome (walked_of layout.now fields.now message.now position count_tag events.old) }
    ensures memory { events.new ≡ events_in layout.now fields.now message.now position count_tag events.old }
{
    Outcome::from(walk_group(layout, fields, message, position, count_tag, events))
}
