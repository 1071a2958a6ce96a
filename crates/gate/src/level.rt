// The members of a level of lent layout words.
ghost use Rattle.std.specs.Prelude.{◌≡◌, take, drop};
ghost use Rattle.layouts.specs.Limits.{gate_limits};
ghost use Rattle.levels.specs.Members.{level_part};
ghost use Rattle.gate.specs.MembersOutcome.{members_outcome};

use layouts::layout_words::stretch_at;
use levels::members::level_of;
use outcomes::outcome::Outcome;

// `words`: how many members the level has that the path of count tags leads to; `extra`: where they stand in the layout's words.
pub fn gate_level_members(layout: &[u32], path: &[u32]) -> Outcome
    ensures outcome { result ≡ members_outcome layout.now path.now }
    ensures part { take result.words (drop result.extra layout.now) ≡ level_part gate_limits layout.now path.now }
{
    match level_of(layout, path) {
        Ok(level) => {
            let place = 1 + level;
            let members = stretch_at(layout, place);
            let first = layout[place] as usize;
            Outcome::answered(members.len(), first)
        }
        Err(refusal) => Outcome::from(refusal),
    }
}
