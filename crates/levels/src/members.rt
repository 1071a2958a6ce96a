// Levels of a layout in lent words: by the count tags that lead there from the top, and their
// members as a part of the words.
ghost use Rattle.std.specs.Prelude.{◌≡◌, ◌≤◌};
ghost use Rattle.layouts.specs.Limits.{gate_limits};
ghost use Rattle.layouts.specs.LayoutWords.{group_count};
ghost use Rattle.levels.specs.Members.{nested_level, level_outcome, level_part};

use layout_check::layout_check::layout_of;
use layouts::layout_words::{Layout, stretch_at};
use refusals::refusal::Refusal;

// The number of the entry level of the group with this count tag that stands in the level, if there
// is one.
pub fn nested_level(layout: Layout<'_>, level: usize, tag: u32) -> Option<usize>
    requires { level ≤ group_count layout.words.now }
    ensures { result ≡ nested_level layout.entry.words.now level tag }
{
    let rank = layout.count_tags_at(level).binary_search(tag)?;
    let number = layout.first_group_of(level) + rank;
    Some(number + 1)
}

// The level that the count tags of the path lead to from the top: 11 where the words are no
// layout's, 14 with the first count tag that is not found. The empty path leads to the top.
pub fn level_of(words: &[u32], path: &[u32]) -> Result<usize, Refusal>
    ensures outcome { result ≡ level_outcome gate_limits words.now path.now }
{
    let layout = layout_of(words).ok_or(Refusal::RuleBroken(0, 0))?;
    let mut level = 0;
    for tag in path {
        level = nested_level(layout, level, *tag).ok_or(Refusal::NoSuchGroup(*tag))?;
    }
    Ok(level)
}

// The members of the level that the count tags of the path lead to, a part of the words themselves.
// It is empty where `level_of` refuses.
pub fn level_members<'a>(words: &'a [u32], path: &[u32]) -> &'a [u32]
    ensures outcome { result.now ≡ level_part gate_limits words.now path.now }
{
    let Ok(level) = level_of(words, path) else {
        return &words[..0];
    };
    stretch_at(words, 1 + level)
}
