// The members of a level of lent layout words.
ghost use Rattle.std.specs.Prelude.{◌≡◌, take, drop};
ghost use Rattle.layouts.specs.Limits.{gate_limits};
ghost use Rattle.levels.specs.Members.{level_part};
ghost use Rattle.gate.specs.MembersOutcome.{members_outcome};

use outcomes::outcome::Outcome;

// `words`: how many members the level has that the path of count tags leads to; `extra`: where they stand in the layout's words.
#[unsafe(no_mangle)]
pub extern "C" fn gate_level_members(layout: &[u32], path: &[u32]) -> Outcome
    ensures outcome { result ≡ members_outcome layout.now path.now }
    ensures part { take result.words (drop result.extra layout.now) ≡ level_part gate_limits layout.now path.now }
{
    gate::level::gate_level_members(layout, path)
}
