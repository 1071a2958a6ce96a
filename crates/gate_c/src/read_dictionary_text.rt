// Reading a dictionary text into lent words.
ghost use Rattle.std.specs.Prelude.{◌≡◌, length};
ghost use Rattle.read_dictionary.specs.ReadDictionary.{read_of, read_in};
ghost use Rattle.outcomes.specs.Answers.{words_outcome};

use outcomes::outcome::Outcome;

// `words`: how many words the dictionary takes.
#[unsafe(no_mangle)]
pub extern "C" fn gate_read_dictionary(text: &[u8], dictionary: &mut [u32]) -> Outcome
    ensures outcome { result ≡ words_outcome (read_of text.now (length dictionary.old)) }
    ensures memory { dictionary.new ≡ read_in text.now dictionary.old }
{
    gate::read_dictionary_text::gate_read_dictionary(text, dictionary)
}
