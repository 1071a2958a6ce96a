// What every call of the gate answers: a refusal with its place, or how many words were written and one number more.
ghost use Rattle.std.specs.Prelude.{◌≡◌};
ghost use Rattle.outcomes.specs.Outcome.{refused_with, answered_with};

use refusals::refusal::Refusal;

#[repr(C)]
#[derive(Clone, Copy)]
pub struct Outcome {
    // document 01's number of the refusal; 0 for an answer
    pub refusal: u64,
    pub place: u64,
    pub words: u64,
    pub extra: u64,
}

// A refusal: document 01's number of it, and its place.
impl From<Refusal> for Outcome {
    ghost from_gives = { λ refusal outcome. outcome ≡ refused_with refusal };

    fn from(refusal: Refusal) -> Self {
        Outcome {
            refusal: refusal.number(),
            place: refusal.place(),
            words: 0,
            extra: 0,
        }
    }
}

impl Outcome {
    pub fn answered(words: usize, extra: usize) -> Self
        ensures outcome { result ≡ answered_with words extra }
    {
        Outcome {
            refusal: 0,
            place: 0,
            words: words as u64,
            extra: extra as u64,
        }
    }
}
