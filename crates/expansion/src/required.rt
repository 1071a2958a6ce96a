// The required list of an entry level. The Rust's `retain` with its HashSet of tags: the tags that stay are the ones seen.
ghost use Rattle.std.specs.Prelude.{◌≡◌, [], length};
ghost use Rattle.expansion.specs.Expansion.{retained};
ghost use Rattle.expansion.specs.Retained.{is_dropped, retained_in};

// The delimiter opens every entry, so it can never be missing; each other tag is kept once.
fn is_dropped(delimiter: u32, seen: &[u32], tag: u32) -> bool
    ensures { result ≡ is_dropped delimiter seen.now tag }
{
    tag == delimiter || seen.contains(&tag)
}

// Keeps each required tag once, at its first position, and not the delimiter; returns how many they are. After them the words stay.
pub fn retain(required: &mut [u32], delimiter: u32) -> usize
    ensures outcome { result ≡ length (retained delimiter [] required.old) }
    ensures memory { required.new ≡ retained_in delimiter required.old }
{
    let mut kept = 0;
    for index in 0..required.len() {
        let tag = required[index];
        if !is_dropped(delimiter, &required[..kept], tag) {
            required[kept] = tag;
            kept += 1;
        }
    }
    kept
}
