// Sets of ranks, in words that are lent: a rank is in the set if and only if its bit is set.
ghost use Rattle.std.specs.Prelude.{◌≡◌, ◌*◌, ◌/◌, ◌%◌, ◌^◌, ◌≤◌, ◌<◌, not, length};
ghost use Rattle.entry_tags.specs.EntryTags.{holds_rank, insert_rank, ones_of, rank_count};

// The bit of a rank in its word. The Rust's `slot`.
pub fn mask_of(rank: usize) -> u64
    ensures { result ≡ 2 ^ (rank % 64) }
{
    1u64 << (rank % 64)
}

// Puts the rank into the set; false if it was there already.
pub fn insert(words: &mut [u64], rank: usize) -> bool
    requires { rank / 64 < length words.old }
    ensures outcome { result ≡ not (holds_rank words.old rank) }
    ensures memory { words.new ≡ insert_rank words.old rank }
{
    let mask = mask_of(rank);
    let word = &mut words[rank / 64];
    let fresh = *word & mask == 0;
    *word |= mask;
    fresh
}

// Whether the rank is in the set.
pub fn contains(words: &[u64], rank: usize) -> bool
    requires { rank / 64 < length words.now }
    ensures { result ≡ holds_rank words.now rank }
{
    words[rank / 64] & mask_of(rank) != 0
}

// How many bits of the words are set.
fn ones_in(words: &[u64]) -> u64
    requires { length words.now ≤ 128 }
    ensures { result ≡ ones_of words.now }
{
    words.iter().map(|word| u64::from(word.count_ones())).sum()
}

// How many ranks the set has, of a level of so many members: only the words that such a level uses
// are read.
pub fn count(words: &[u64], members: usize) -> u64
    requires { (members ≤ 8192) × (members ≤ 64 * length words.now) }
    ensures { result ≡ rank_count words.now members }
{
    ones_in(&words[..members.div_ceil(64)])
}
