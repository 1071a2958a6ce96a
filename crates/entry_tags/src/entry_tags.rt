// The tags seen at one entry's own level, as a set of ranks: each tag's rank in the group's sorted
// member list. Ported from walk.rs, `EntryTags`: two widths, as the Rust has an inline set and one on
// the heap.
ghost use Rattle.std.specs.Prelude.{◌≡◌, ◌*◌, ◌≤◌, ◌<◌, not, length};
ghost use Rattle.entry_tags.specs.EntryTags.{no_ranks, holds_rank, insert_rank, mask_in, rank_count};

use crate::ranks;

// A set of ranks of a level's members, by value, in so many words of 64 bits: there is no heap.
// Inserting gives the set back.
#[derive(Clone, Copy)]
pub struct RankSet<const WORDS: usize> {
    pub words: [u64; WORDS],
}

// A level of up to 256 members. Four words stay in registers; the eight of the Rust's INLINE_MEMBERS
// would be copied through memory at each insert (docs/SPEED.md).
pub type EntryTags = RankSet<4>;

// A wider level, of up to 8,192 members. The Rust's set on the heap.
pub type WideEntryTags = RankSet<128>;

// The bit of the rank in one of the words: no bit where the rank is in another word.
fn mask_in(word: usize, rank: usize) -> u64
    ensures { result ≡ mask_in word rank }
{
    if rank / 64 == word {
        ranks::mask_of(rank)
    } else {
        0
    }
}

// Puts the rank into a set of four words, as `ranks::insert` does. The words are reached by numbers and
// not by a variable or a loop, so that the compiled walk keeps them in registers (docs/SPEED.md).
fn insert_in_four(words: &mut [u64], rank: usize) -> bool
    requires { (length words.old ≡ 4) × (rank < 256) }
    ensures outcome { result ≡ not (holds_rank words.old rank) }
    ensures memory { words.new ≡ insert_rank words.old rank }
{
    let first = mask_in(0, rank);
    let second = mask_in(1, rank);
    let third = mask_in(2, rank);
    let fourth = mask_in(3, rank);
    let held = [words[0], words[1], words[2], words[3]];
    let low = (held[0] & first) | (held[1] & second);
    let hit = low | (held[2] & third) | (held[3] & fourth);
    words[0] = held[0] | first;
    words[1] = held[1] | second;
    words[2] = held[2] | third;
    words[3] = held[3] | fourth;
    hit == 0
}

impl<const WORDS: usize> RankSet<WORDS> {
    pub fn new() -> Self
        ensures { result.words ≡ no_ranks WORDS }
    {
        RankSet { words: [0; WORDS] }
    }

    // Records the member ranked `rank`: the set with it, and whether it was not there before.
    pub fn insert_rank(self, rank: usize) -> (Self, bool)
        requires { rank < 64 * WORDS }
        ensures tags { result.0.words ≡ insert_rank self.entry.words rank }
        ensures fresh { result.1 ≡ not (holds_rank self.entry.words rank) }
    {
        let mut tags = self;
        let fresh = if WORDS == 4 {
            insert_in_four(&mut tags.words, rank)
        } else {
            ranks::insert(&mut tags.words, rank)
        };
        (tags, fresh)
    }

    // How many ranks the set has, of a level of so many members.
    pub fn close(self, members: usize) -> u64
        requires { (members ≤ 64 * WORDS) × (WORDS ≤ 128) }
        ensures { result ≡ rank_count self.entry.words members }
    {
        ranks::count(&self.words, members)
    }
}
