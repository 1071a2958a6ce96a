// The walk of a message on lent words.
ghost use Rattle.std.specs.Prelude.{◌≡◌};
ghost use Rattle.validator.specs.MessageCall.{walked_of, events_in};
ghost use Rattle.outcomes.specs.Answers.{words_outcome};

use outcomes::outcome::Outcome;
use validator::message_call::walk_message;

// `words`: how many words of events were written.
pub fn gate_walk_message(
    dictionary: &[u32],
    layout: &[u32],
    fields: &[u32],
    message: &[u8],
    events: &mut [u64],
) -> Outcome
    ensures outcome { result ≡ words_outcome (walked_of dictionary.now layout.now fields.now message.now events.old) }
    ensures memory { events.new ≡ events_in dictionary.now layout.now fields.now message.now events.old }
{
    Outcome::from(walk_message(dictionary, layout, fields, message, events))
}
