// The value of a count field (FIX: NumInGroup). Ported from walk.rs, `parse_count`.
ghost use Rattle.std.specs.Prelude.{◌≡◌};
ghost use Rattle.counts.specs.Count.{count_of};

// Parses a group count: one or more ASCII digits, fitting in a u64. A sign is refused.
#[tactic(auto, unfolding(ascii::specs::Notation::is_between))]
pub fn parse_count(value: &[u8]) -> Option<u64>
    ensures outcome { result ≡ count_of value.now }
{
    if value.is_empty() {
        return None; // it declares no number
    }
    let mut count: u64 = 0;
    for byte in value {
        if !byte.is_ascii_digit() {
            return None;
        }
        count = count.checked_mul(10)?.checked_add(u64::from(*byte - b'0'))?;
    }
    Some(count)
}
