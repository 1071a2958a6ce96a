// Reading a dictionary text into lent words.
ghost use Rattle.std.specs.Prelude.{◌≡◌, length};
ghost use Rattle.read_dictionary.specs.ReadDictionary.{read_of, read_in};
ghost use Rattle.outcomes.specs.Answers.{words_outcome};

use outcomes::outcome::Outcome;
use read_dictionary::read_dictionary::read_dictionary;

// `words`: how many words the dictionary takes.
pub fn gate_read_dictionary(text: &[u8], dictionary: &mut [u32]) -> Outcome
    ensures outcome { result ≡ words_outcome (read_of text.now (length dictionary.old)) }
    ensures memory { dictionary.new ≡ read_in text.now dictionary.old }
{
    Outcome::from(read_dictionary(text, dictionary))
}
