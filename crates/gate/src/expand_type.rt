// The layout of a message type in lent words.
ghost use Rattle.std.specs.Prelude.{◌≡◌, length};
ghost use Rattle.expand.specs.ExpandCall.{expanded_of, expanded_in};
ghost use Rattle.outcomes.specs.Answers.{expand_outcome};

use expand::expand_call::expand;
use outcomes::outcome::Outcome;

// `words`: how many words the layout takes; `extra`: the nodes spent.
pub fn gate_expand(dictionary: &[u32], message_type: &[u8], layout: &mut [u32]) -> Outcome
    ensures outcome { result ≡ expand_outcome (expanded_of dictionary.now message_type.now (length layout.old)) }
    ensures memory { layout.new ≡ expanded_in dictionary.now message_type.now layout.old }
{
    Outcome::from(expand(dictionary, message_type, layout))
}
