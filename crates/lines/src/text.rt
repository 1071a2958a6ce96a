// A text: at most 65,536 bytes (document 01; a longer one is refused with 1). All texts of the gate
// are read as one of these, so that a function which is given it asks nothing of its length.
ghost use Rattle.std.specs.Prelude.{◌≡◌, ◌≤◌, ◌<◌, length, MatchOption};

#[derive(Clone, Copy)]
pub struct Text<'a> {
    pub bytes: &'a [u8],
    pub ghost short: { length bytes.now ≤ 65536 },
}

impl<'a> Text<'a> {
    // The text that these bytes are, if they are not too many.
    pub fn new(bytes: &'a [u8]) -> Option<Self>
        ensures { MatchOption result (65536 < length bytes.now) (λ text. text.bytes.now ≡ bytes.now) }
    {
        if bytes.len() <= 65536 {
            Some(Text { bytes })
        } else {
            None
        }
    }
}
