// ASCII digits. Ported from schema.rs.
ghost use Rattle.std.specs.Prelude.{◌≡◌};
ghost use Rattle.ascii.specs.Bytes.{every};
ghost use Rattle.ascii.specs.Digits.{is_digit, is_digits, is_digits_of_len};

// The Rust's u8::is_ascii_digit.
#[tactic(auto, unfolding(crate::specs::Notation::is_between))]
pub fn is_ascii_digit(byte: u8) -> bool
    ensures { result ≡ is_digit byte }
{
    byte.is_ascii_digit()
}

// Returns true where every byte is an ASCII digit.
#[tactic(auto, unfolding(crate::specs::Notation::is_between))]
pub fn all_digits(value: &[u8]) -> bool
    ensures { result ≡ every is_digit value.now }
{
    value.iter().all(|byte| byte.is_ascii_digit())
}

// Returns true for a non-empty run of ASCII digits.
#[tactic(auto, using(crate::specs::BytesLaws::non_empty_is))]
pub fn is_digits(value: &[u8]) -> bool
    ensures { result ≡ is_digits value.now }
{
    !value.is_empty() && all_digits(value)
}

// Returns true for exactly `len` ASCII digits.
pub fn is_digits_of_len(value: &[u8], len: usize) -> bool
    ensures { result ≡ is_digits_of_len len value.now }
{
    value.len() == len && all_digits(value)
}
