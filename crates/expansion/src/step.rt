// The steps of an expansion, and the word of the trace that tells of each (specs/Steps.antt).
ghost use Rattle.std.specs.Prelude.{◌≡◌};
ghost use Rattle.expansion.specs.Steps.{step_of, word_of};

// What is added to the level in work, which group is entered, or that it is left.
#[derive(Clone, Copy)]
pub enum Step {
    // a member, of this tag
    Member(u32),
    // an entry of the required list
    Required(u32),
    // a group is entered: its count tag, and whether it is required
    Enter(u32, bool),
    // the group with this delimiter is left
    Leave(u32),
}

// The word of the step: the trace is lent as words, as all memory of the gate is.
impl From<Step> for u64 {
    ghost from_gives = { λ step word. word ≡ word_of step };

    fn from(step: Step) -> u64 {
        match step {
            Step::Member(tag) => u64::from(tag) * 4,
            Step::Required(tag) => u64::from(tag) * 4 + 1,
            Step::Enter(count, true) => u64::from(count) * 8 + 6,
            Step::Enter(count, false) => u64::from(count) * 8 + 2,
            Step::Leave(delimiter) => u64::from(delimiter) * 4 + 3,
        }
    }
}

// The step that the word tells of. A tag has 32 bits, so a word is read by them whatever stands above.
impl From<u64> for Step {
    ghost from_gives = { λ word step. step ≡ step_of word };

    #[tactic(auto, unfolding(crate::specs::Steps::step_of))]
    fn from(word: u64) -> Step {
        let tag = (word / 4 % 0x1_0000_0000) as u32;
        match word % 4 {
            0 => Step::Member(tag),
            1 => Step::Required(tag),
            2 => Step::Enter((word / 8 % 0x1_0000_0000) as u32, word / 4 % 2 == 1),
            _ => Step::Leave(tag),
        }
    }
}
