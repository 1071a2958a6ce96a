// A value cut at each separator. The Rust's str::split at one character.
ghost use Rattle.std.specs.Prelude.{◌≡◌, ◌+◌, ◌-◌, ◌≤◌, length, drop};
ghost use Rattle.ascii.specs.Split.{index_of};

// The index of the first `separator`, or the length where there is none.
fn place_of(value: &[u8], separator: u8) -> usize
    ensures place { result ≡ index_of separator value.now }
    ensures within { result ≤ length value.now }
{
    value
        .iter()
        .position(|byte| *byte == separator)
        .unwrap_or(value.len())
}

// The index of the first `separator` from `from` on, or the length where there is none; `from`
// itself where that lies past the end.
#[tactic(auto, using(crate::specs::SplitLaws::index_of_end))]
pub fn find(value: &[u8], from: usize, separator: u8) -> usize
    ensures place { result ≡ from + index_of separator (drop from value.now) }
    ensures bounds { (from ≤ result) × (result ≤ from + (length value.now - from)) }
{
    match value.get(from..) {
        Some(rest) => from + place_of(rest, separator),
        None => from,
    }
}
