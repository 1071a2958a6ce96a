// Lists of values in one field (FIX: MultipleValueString). Ported from schema.rs, `is_multi_value_list`.
ghost use Rattle.std.specs.Prelude.{◌≡◌};
ghost use Rattle.multi_values.specs.MultiValue.{is_token, is_multi_value_list};

use characters::characters::count_chars;

// Returns true for a token that is non-empty and, where a length is asked, exactly that many characters.
#[tactic(auto, using(ascii::specs::BytesLaws::non_empty_is))]
pub fn is_token(token: &[u8], token_len: Option<usize>) -> bool
    ensures { result ≡ is_token token_len token.now }
{
    !token.is_empty() && token_len.is_none_or(|len| count_chars(token) == len)
}

// Returns true for a non-empty space-separated list whose every token is non-empty and, when a length is asked, exactly that many characters.
pub fn is_multi_value_list(value: &[u8], token_len: Option<usize>) -> bool
    ensures outcome { result ≡ is_multi_value_list token_len value.now }
{
    value
        .split(|byte| *byte == b' ')
        .all(|token| is_token(token, token_len))
}
