// Space for words that a call is lent, and what it holds where none was written.
ghost use Rattle.std.proofs.Common.{rules};
ghost use Rattle.std.specs.Prelude.{◌≡◌, ℕ, ◌↔◌, ◌≤◌, ◌<◌, ◌++◌, IsTrue, All, length, take, drop, replicate};
ghost use Rattle.std.specs.Bool.{Decides};

// The words that calls write, of 32 or of 64 bits.
pub trait Word: Copy + Eq {
    // what the space holds where no word was written
    const UNWRITTEN: Self;

    ghost UNWRITTEN: { Self };

    // how many words a call is lent at most
    const MOST: usize;

    ghost MOST: { ℕ };

    // Words that are equal are the same, and a copy can be made and is the word.
    ghost same: { (a b : Self) → Decides (Self.eq a b) (a ≡ b) };

    ghost infallible: { (a : Self) → Self.is_infallible a };

    ghost copied: { (a b : Self) → Self.is_clone a b → b ≡ a };
}

impl Word for u32 {
    ghost UNWRITTEN = { 1515870810 };

    ghost MOST = { 131072 };

    ghost same = { Prim.search rules };

    ghost infallible = { Prim.search rules };

    ghost copied = { Prim.search rules };

    const UNWRITTEN: u32 = 0x5a5a_5a5a;

    const MOST: usize = 131072;
}

impl Word for u64 {
    ghost UNWRITTEN = { 6510615555426900570 };

    ghost MOST = { 153600 };

    ghost same = { Prim.search rules };

    ghost infallible = { Prim.search rules };

    ghost copied = { Prim.search rules };

    const UNWRITTEN: u64 = 0x5a5a_5a5a_5a5a_5a5a;

    const MOST: usize = 153600;
}

// The space that calls are lent, at the start of lent room: as many words as a call is lent at most,
// or all of the room where it has fewer.
pub fn make_space<W: Word>(room: &mut [W]) -> &mut [W]
    ensures enough { W.MOST ≤ length room.old → result.now ≡ replicate W.MOST W.UNWRITTEN }
    ensures short { length room.old ≤ W.MOST →
        result.now ≡ replicate (length room.old) W.UNWRITTEN }
{
    let most = room.len().min(W::MOST);
    let space = &mut room[..most];
    clear(space);
    space
}

// The space holds these words at its start and none after them. It is made as it was before.
pub fn took_words<W: Word>(space: &mut [W], words: &[W]) -> bool
    ensures took { IsTrue result ↔ (
        (take (length words.now) space.old ≡ words.now)
        × All (λ word. word ≡ W.UNWRITTEN) (drop (length words.now) space.old)
        ) }
    ensures cleared { space.new ≡ replicate (length space.old) W.UNWRITTEN }
{
    let took = took_from_start(space, words);
    clear(space);
    took
}

// The same, but so many words at the start of the space are made as they were before, where it has
// so many. What was written after them stays, so that a later case finds it.
pub fn took_from_start<W: Word>(space: &mut [W], words: &[W]) -> bool
    ensures took { IsTrue result ↔ (
        (take (length words.now) space.old ≡ words.now)
        × All (λ word. word ≡ W.UNWRITTEN) (drop (length words.now) space.old)
        ) }
    ensures cleared { length words.now ≤ length space.old →
        space.new ≡ replicate (length words.now) W.UNWRITTEN ++ drop (length words.now) space.old }
    ensures short { length space.old < length words.now → space.new ≡ space.old }
{
    let took = holds(space, words);
    if words.len() <= space.len() {
        clear(&mut space[..words.len()]);
    }
    took
}

fn holds<W: Word>(space: &[W], words: &[W]) -> bool
    ensures { IsTrue result ↔ (
        (take (length words.now) space.now ≡ words.now)
        × All (λ word. word ≡ W.UNWRITTEN) (drop (length words.now) space.now)
        ) }
{
    match space.split_at_checked(words.len()) {
        Some((taken, rest)) => are_same(taken, words) && is_unwritten(rest),
        None => false,
    }
}

fn are_same<W: Word>(taken: &[W], words: &[W]) -> bool
    ensures { IsTrue result ↔ (taken.now ≡ words.now) }
{
    taken == words
}

pub fn is_unwritten<W: Word>(space: &[W]) -> bool
    ensures { IsTrue result ↔ All (λ word. word ≡ W.UNWRITTEN) space.now }
{
    space.iter().all(|word| *word == W::UNWRITTEN)
}

// Makes the space as it was before words were written.
pub fn clear<W: Word>(space: &mut [W])
    ensures { space.new ≡ replicate (length space.old) W.UNWRITTEN }
{
    space.fill(W::UNWRITTEN);
}
