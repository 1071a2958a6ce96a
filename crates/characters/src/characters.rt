// The characters of a value after the Rust's String::from_utf8_lossy.
ghost use Rattle.std.specs.Prelude.{◌≡◌};
ghost use Rattle.characters.specs.Characters.{expects, expected_after, continues, characters};

// What the open character still expects: `more` bytes, the next of them from `low` to `high`.
#[derive(Clone, Copy)]
pub struct Expected {
    pub more: u8,
    pub low: u8,
    pub high: u8,
}

// The state with these three numbers.
fn expects(more: u8, low: u8, high: u8) -> Expected
    ensures { result ≡ expects more low high }
{
    Expected { more, low, high }
}

// What a character that begins with this byte expects after it (Unicode, table 3-7).
#[tactic(auto, unfolding(crate::specs::Characters::expected_after, ascii::specs::Notation::is_between))]
pub fn expected_after(lead: u8) -> Expected
    ensures { result ≡ expected_after lead }
{
    match lead {
        0xC2..=0xDF => expects(1, 0x80, 0xBF),
        0xE0 => expects(2, 0xA0, 0xBF),
        0xE1..=0xEC => expects(2, 0x80, 0xBF),
        0xED => expects(2, 0x80, 0x9F),
        0xEE..=0xEF => expects(2, 0x80, 0xBF),
        0xF0 => expects(3, 0x90, 0xBF),
        0xF1..=0xF3 => expects(3, 0x80, 0xBF),
        0xF4 => expects(3, 0x80, 0x8F),
        _ => expects(0, 0x80, 0xBF),
    }
}

// Whether the byte goes on with the open character.
#[tactic(auto, unfolding(crate::specs::Characters::continues, ascii::specs::Notation::is_between))]
pub fn continues(expected: Expected, byte: u8) -> bool
    ensures { result ≡ continues expected byte }
{
    expected.more != 0 && expected.low <= byte && byte <= expected.high
}

// The number of characters of the value after from_utf8_lossy. The Rust's value.chars().count().
#[tactic(auto, using(crate::specs::CharactersLaws::counting), unfolding(crate::specs::Characters::characters))]
pub fn count_chars(value: &[u8]) -> usize
    ensures outcome { result ≡ characters value.now }
{
    let mut count: usize = 0;
    let mut expected = expects(0, 0x80, 0xBF);
    for byte in value {
        if continues(expected, *byte) {
            expected = expects(expected.more - 1, 0x80, 0xBF);
        } else {
            count += 1;
            expected = expected_after(*byte);
        }
    }
    count
}
