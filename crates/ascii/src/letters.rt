// ASCII letters. Ported from schema.rs.
ghost use Rattle.std.specs.Prelude.{◌≡◌};
ghost use Rattle.ascii.specs.Bytes.{every};
ghost use Rattle.ascii.specs.Letters.{is_letter, is_alpha_of_len};

// Returns true where every byte is an ASCII letter.
#[tactic(auto, unfolding(crate::specs::Notation::is_between))]
fn all_letters(value: &[u8]) -> bool
    ensures { result ≡ every is_letter value.now }
{
    value.iter().all(|byte| byte.is_ascii_alphabetic())
}

// Returns true for exactly `len` ASCII alphabetic characters.
pub fn is_alpha_of_len(value: &[u8], len: usize) -> bool
    ensures { result ≡ is_alpha_of_len len value.now }
{
    value.len() == len && all_letters(value)
}
