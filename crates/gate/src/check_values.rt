// The verdicts on the values of a message, on lent words.
ghost use Rattle.std.specs.Prelude.{◌≡◌};
ghost use Rattle.verdicts.specs.Verdicts.{judged_of, verdicts_in};
ghost use Rattle.outcomes.specs.Answers.{words_outcome};

use outcomes::outcome::Outcome;
use verdicts::verdicts_call::check_values;

// `words`: how many verdicts were written, one a field.
pub fn gate_verdicts(
    dictionary: &[u32],
    fields: &[u32],
    message: &[u8],
    strict: bool,
    verdicts: &mut [u64],
) -> Outcome
    ensures outcome { result ≡ words_outcome (judged_of dictionary.now fields.now message.now verdicts.old) }
    ensures memory { verdicts.new ≡ verdicts_in dictionary.now fields.now message.now strict verdicts.old }
{
    Outcome::from(check_values(dictionary, fields, message, strict, verdicts))
}
