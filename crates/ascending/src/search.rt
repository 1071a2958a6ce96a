// Searching words in strictly ascending order. The Rust's slice::binary_search.
ghost use Rattle.std.specs.Prelude.{◌≡◌, true};
ghost use Rattle.ascending.specs.Search.{StrictlyAscending, is_strictly_ascending, rank_in, Holds};

// Returns true where every word is above the one before it.
pub fn is_strictly_ascending(words: &[u32]) -> bool
    ensures outcome { result ≡ is_strictly_ascending words.now }
{
    words.is_sorted_by(|before, word| before < word)
}

// Searches the words for a tag. What is found is the tag in any case; nothing is missed where every
// word is above the one before it. As in the Rust, the part that may hold the tag is halved until
// one word is left, and `last`, that word, moves with `base`: so the compiled loop has no jump that
// hangs on a word (docs/SPEED.md).
pub fn binary_search(words: &[u32], tag: u32) -> Option<usize>
    ensures outcome { StrictlyAscending words.now → result ≡ rank_in words.now tag }
    ensures there { Holds words.now tag result }
{
    if words.len() == 0 {
        return None;
    }
    let mut base = 0;
    let mut last = words[0];
    let mut size = words.len();
    // The library's binary_search was tried: its loop jumps on a word, and takes 2.5 to 4 times as long.
    while 1 < size {
        let half = size / 2;
        size -= half;
        let middle = base + half;
        let word = words[middle];
        if word <= tag {
            base = middle;
            last = word;
        }
    }
    if last == tag {
        return Some(base);
    }
    None
}

// Words of which every one is above the one before it.
#[derive(Clone, Copy)]
pub struct Ascending<'a> {
    pub words: &'a [u32],
    pub ghost ascends: { is_strictly_ascending words.now ≡ true },
}

impl Ascending<'_> {
    // The place of the tag among the words, if it is there.
    pub fn binary_search(self, tag: u32) -> Option<usize>
        ensures { result ≡ rank_in self.entry.words.now tag }
    {
        binary_search(self.words, tag)
    }
}
