// What a call gave, beside what was recorded of it.
ghost use Rattle.std.specs.Prelude.{◌≡◌, ◌==◌, ◌↔◌, ◌⊎◌, IsTrue, IfSome, MatchResult, Some, false, codes, take};
ghost use Rattle.std.specs.List.{before_first, after_first};
ghost use Rattle.counts.specs.Count.{count_of};
ghost use Rattle.refusals.specs.Refusal.{refusal_number, refusal_place};
ghost use Rattle.refusals.specs.declared.refusal.Refusal.TheVariants.{SpaceShort};

use crate::recorded_values::split_kind;
use counts::count::parse_count;
use refusals::refusal::Refusal;

// What a call wrote: how many words, and the number that it tells beside them: the nodes of an
// expansion, the position after a group; 0 of any other call.
#[derive(Clone, Copy, PartialEq, Eq)]
pub struct Written {
    pub number: usize,
    pub words: usize,
}

impl From<usize> for Written {
    ghost from_gives = { λ words written. (written.number ≡ 0) × (written.words ≡ words) };

    fn from(words: usize) -> Self {
        Self { number: 0, words }
    }
}

pub type Given = Result<Written, Refusal>;

pub fn is_written(given: Given, written: Written) -> bool
    ensures { IsTrue result ↔ (given ≡ Ok written) }
{
    given.is_ok_and(|told| told == written)
}

// Refused with 13 and the words needed.
pub fn is_short(given: Given, needed: usize) -> bool
    ensures { IsTrue result ↔ (given ≡ Err (SpaceShort needed)) }
{
    matches!(given, Err(Refusal::SpaceShort(words)) if words == needed as u64)
}

pub fn is_refused_as(given: Given, recorded: Refused) -> bool
    ensures { MatchResult given (λ _. result ≡ false) (λ refusal. IsTrue result ↔ (
        (refusal_number refusal ≡ recorded.number) × (refusal_place refusal ≡ recorded.place)
        )) }
{
    given.is_err_and(|refusal| Refused::from(refusal) == recorded)
}

// A refusal as the lists record it: its number and its place.
#[derive(Clone, Copy, Debug, PartialEq, Eq)]
pub struct Refused {
    number: u64,
    place: u64,
}

impl From<Refusal> for Refused {
    ghost from_gives = { λ refusal refused.
        (refused.number ≡ refusal_number refusal) × (refused.place ≡ refusal_place refusal) };

    fn from(refusal: Refusal) -> Self {
        Self {
            number: refusal.number(),
            place: refusal.place(),
        }
    }
}

impl Refused {
    // Refused with 10 or 11: the lines of a layout text are in order, but make no layout.
    pub fn is_of_layout(self) -> bool
        ensures { IsTrue result ↔ ((self.number ≡ 10) ⊎ (self.number ≡ 11)) }
    {
        self.number == 10 || self.number == 11
    }

    // The refusal whose number and place the text has, with a space between them; None where it has
    // another form.
    pub fn recorded(text: &[u8]) -> Option<Self>
        ensures { IfSome result (λ refused.
            (count_of (before_first (λ byte. byte == 32) text.now) ≡ Some refused.number)
            × (count_of (after_first (λ byte. byte == 32) text.now) ≡ Some refused.place)) }
    {
        let (number, place) = split_kind(text);
        Some(Self {
            number: parse_count(number)?,
            place: parse_count(place)?,
        })
    }
}

// Whether an answer is a refusal: it begins with an r.
pub fn is_refusal(answer: &[u8]) -> bool
    ensures { IsTrue result ↔ (take 1 answer.now ≡ codes "r") }
{
    answer.starts_with(b"r")
}
