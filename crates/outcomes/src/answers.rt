// The outcome of each call: what it answers (specs/Answers.antt).
ghost use Rattle.std.specs.Prelude.{◌≡◌};
ghost use Rattle.outcomes.specs.Answers.{words_outcome, expand_outcome, walk_outcome};

use crate::outcome::Outcome;
use expand::expand_call::Expanded;
use refusals::refusal::Refusal;
use walk::walk_call::Walked;

// An answer of `read_dictionary`, `read_layout`, `walk_message` or `check_values`: the words written.
impl From<Result<usize, Refusal>> for Outcome {
    ghost from_gives = { λ answer outcome. outcome ≡ words_outcome answer };

    fn from(answer: Result<usize, Refusal>) -> Self {
        match answer {
            Ok(words) => Outcome::answered(words, 0),
            Err(refusal) => Outcome::from(refusal),
        }
    }
}

// An answer of `expand`: the words written, and the nodes spent.
impl From<Result<Expanded, Refusal>> for Outcome {
    ghost from_gives = { λ answer outcome. outcome ≡ expand_outcome answer };

    fn from(answer: Result<Expanded, Refusal>) -> Self {
        match answer {
            Ok(Expanded { nodes, words }) => Outcome::answered(words, nodes),
            Err(refusal) => Outcome::from(refusal),
        }
    }
}

// An answer of `walk_group`: the words written, and the position after the group.
impl From<Result<Walked, Refusal>> for Outcome {
    ghost from_gives = { λ answer outcome. outcome ≡ walk_outcome answer };

    fn from(answer: Result<Walked, Refusal>) -> Self {
        match answer {
            Ok(Walked { position, words }) => Outcome::answered(words, position),
            Err(refusal) => Outcome::from(refusal),
        }
    }
}
