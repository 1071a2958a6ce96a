// The tags seen at the message level, as a set of ranks among the tags that the dictionary defines.
// The Rust's HashSet<u32> (validator.rs) becomes 171 words, which hold the ranks of 10,922 tags.
ghost use Rattle.std.specs.Prelude.{◌≡◌, ◌≤◌, List, ℕ, length, true};
ghost use Rattle.ascending.specs.Search.{StrictlyAscending, is_strictly_ascending, rank_in};
ghost use Rattle.ascii.specs.Membership.{◌∈ᵇ◌};
ghost use Rattle.message_level.specs.SeenTags.{SeenTags, seen_words};

use ascending::search::Ascending;
use entry_tags::ranks;

// The tags that a dictionary defines, ascending.
#[derive(Clone, Copy)]
pub struct DefinedTags<'a> {
    pub tags: Ascending<'a>,
    pub ghost few_tags: { length tags.words.now ≤ 10922 },
}

impl<'a> DefinedTags<'a> {
    pub fn new(tags: &'a [u32]) -> Self
        requires ascends { StrictlyAscending tags.now }
        requires few_tags { length tags.now ≤ 10922 }
        ensures { result.tags.words.now ≡ tags.now }
    {
        DefinedTags {
            tags: Ascending { words: tags },
        }
    }
}

// The tags seen: a rank is in the words if the tag of that rank was. The Rust's `seen`.
#[derive(Clone, Copy)]
pub struct SeenSet<'a> {
    pub defined: DefinedTags<'a>,
    pub words: &'a [u64],
    pub ghost wide: { length words.now ≡ seen_words },
}

impl SeenSet<'_> {
    // Whether the tag was seen. A tag that is not defined never was. The Rust's
    // `seen.contains(tag)`.
    pub fn contains(&self, tag: u32) -> bool
        ensures { (tags : List ℕ)
            → SeenTags self.now.defined.tags.words.now self.now.words.now tags
            → result ≡ tag ∈ᵇ tags }
    {
        let Some(rank) = self.defined.tags.binary_search(tag) else {
            return false;
        };
        ranks::contains(self.words, rank)
    }
}
