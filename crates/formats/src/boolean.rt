// FIX's Boolean. The Rust's arm Boolean of is_valid_value.
ghost use Rattle.std.specs.Prelude.{◌≡◌};
ghost use Rattle.formats.specs.Boolean.{is_boolean};

// Returns true for Y and for N.
#[tactic(auto, using(crate::specs::BooleanLaws::is_boolean_is))]
pub fn is_boolean(value: &[u8]) -> bool
    ensures outcome { result ≡ is_boolean value.now }
{
    matches!(value, [b'Y' | b'N'])
}
