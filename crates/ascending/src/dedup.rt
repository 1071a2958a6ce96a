// Dropping words that repeat the one before. The Rust's Vec::dedup, on a slice: the answer is how
// many words stay.
ghost use Rattle.std.specs.Prelude.{◌≡◌, length};
ghost use Rattle.ascending.specs.Dedup.{deduped, deduped_in};

// Keeps the first of each run of equal words, in front and in order, and returns how many they are.
// The words after them stay.
pub fn dedup(words: &mut [u32]) -> usize
    ensures outcome { result ≡ length (deduped words.old) }
    ensures memory { words.new ≡ deduped_in words.old }
{
    if words.is_empty() {
        return 0;
    }
    let mut kept = 1;
    for index in 1..words.len() {
        let word = words[index];
        if word != words[kept - 1] {
            words[kept] = word;
            kept += 1;
        }
    }
    kept
}
