// The words of a dictionary: lent words that passed their check, so that a function which is given
// them asks nothing more of them.
ghost use Rattle.std.specs.Prelude.{◌≡◌, ◌≤◌, true, ◌+◌, ◌*◌, length, get_or};
ghost use Rattle.dictionary.specs.DictionaryCheck.{size_of, is_dictionary};
ghost use Rattle.dictionary.specs.DictionaryRecords.{records_in};
ghost use Rattle.records.specs.Records.{Words32};

use crate::dictionary_check::is_dictionary;
use records::records::RECORD;

#[derive(Clone, Copy)]
pub struct Dictionary<'a> {
    pub words: &'a [u32],
    pub ghost accepted: { is_dictionary words.now ≡ true },
    pub ghost words32: { Words32 words.now },
    // the words have a head, and hold all that it counts
    pub ghost head: { 4 ≤ length words.now },
    pub ghost fits: { size_of words.now ≤ length words.now },
}

impl<'a> Dictionary<'a> {
    ghost use Rattle.std.specs.Prelude.{IfSome};
    ghost use Rattle.std.specs.Option.{is_some};

    // The dictionary in these words, if they pass their check.
    pub fn new(words: &'a [u32]) -> Option<Self>
        ensures accepted { is_some result ≡ is_dictionary words.now }
        ensures words { IfSome result (λ dictionary. dictionary.words.now ≡ words.now) }
    {
        if is_dictionary(words) {
            Some(Dictionary { words })
        } else {
            None
        }
    }

    // The records of its lines, in the text's order.
    pub fn records(self) -> &'a [[u32; RECORD]]
        ensures records { result.now ≡ records_in self.entry.words.now }
        ensures count { length result.now ≡ get_or self.entry.words.now 0 0 }
    {
        let past = 4 + RECORD * (self.words[0] as usize);
        self.words[4..past].as_chunks::<RECORD>().0
    }
}
