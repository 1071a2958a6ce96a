// The tags that a dictionary defines, as a part of its words.
ghost use Rattle.std.specs.Prelude.{◌≡◌, ◌≤◌, length};
ghost use Rattle.ascending.specs.Search.{StrictlyAscending};
ghost use Rattle.definitions.specs.DefinedTags.{defined_tags};

use dictionary::dictionary::Dictionary;

// The tags with a definition, ascending: the names of the index of the definitions. A text of 65,536 bytes has at most 10,922 lines.
pub fn defined_tags<'a>(dictionary: Dictionary<'a>) -> &'a [u32]
    ensures tags { result.now ≡ defined_tags dictionary.entry.words.now }
    ensures ascending { StrictlyAscending result.now }
    ensures few { length result.now ≤ 10922 }
{
    let words = dictionary.words;
    let lines = words[0] as usize;
    let count = words[1] as usize;
    let at = 4 + 10 * lines;
    let past = at + count;
    &words[at..past]
}
