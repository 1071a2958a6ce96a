// Lines of a text and parts of a line.
ghost use Rattle.std.specs.Prelude.{position, ◌==◌, ◌≡◌};
ghost use Rattle.lines.specs.Lines.{before, behind, starts_with, is_same};

// The place of the first such byte.
pub fn position(bytes: &[u8], byte: u8) -> Option<usize>
    ensures { result ≡ position (λ each. each == byte) bytes.now }
{
    bytes.iter().position(|each| *each == byte)
}

// What stands before the first such byte.
pub fn before(bytes: &[u8], byte: u8) -> &[u8]
    ensures { result.now ≡ before byte bytes.now }
{
    match position(bytes, byte) {
        Some(place) => &bytes[..place],
        None => bytes,
    }
}

// What stands behind the first such byte, nothing where there is none.
pub fn behind(bytes: &[u8], byte: u8) -> &[u8]
    ensures { result.now ≡ behind byte bytes.now }
{
    match position(bytes, byte) {
        Some(place) => &bytes[place + 1..],
        None => &[],
    }
}

// The Rust's slice::starts_with.
// no library method: with it and `==`, line_of took a fifth more instructions (callgrind)
pub fn starts_with(bytes: &[u8], key: &[u8]) -> bool
    ensures { result ≡ starts_with key.now bytes.now }
{
    let mut index = 0;
    while index < key.len() {
        if bytes.len() <= index {
            return false;
        }
        if key[index] != bytes[index] {
            return false;
        }
        index += 1;
    }
    true
}

// The Rust's == of two slices; no library method for the same reason.
pub fn is_same(bytes: &[u8], name: &[u8]) -> bool
    ensures { result ≡ is_same name.now bytes.now }
{
    if name.len() != bytes.len() {
        return false;
    }
    starts_with(bytes, name)
}
