// Reading the words of a layout (docs/ARRANGEMENT.md): the stretches that their places bound.
ghost use Rattle.std.specs.Prelude.{◌≡◌, ◌<◌, ◌≤◌, true};
ghost use Rattle.ascii.specs.Notation.{◌≡ᵇ◌};
ghost use Rattle.layouts.specs.Limits.{gate_limits};
ghost use Rattle.layouts.specs.LayoutWords.{stretch, group_count, level_members, level_required, level_count_tags, first_group, count_tag_at, delimiter_at, flag_at};
ghost use Rattle.layouts.specs.LayoutWordsLaws.{StretchInside};
ghost use Rattle.layouts.specs.LayoutCheck.{is_layout};

use ascending::search::Ascending;

// A number of words or a place among them, as a word. No `try_from`: that the number fits is known, and
// its Result would have no use.
pub fn narrow(number: usize) -> u32
    requires { number < 4294967296 }
    ensures { result ≡ number }
{
    number as u32
}

// The stretch of the words from the place that stands at `place` up to the one that stands behind it: a part of the words.
pub fn stretch_at(words: &[u32], place: usize) -> &[u32]
    requires { StretchInside words.now place }
    ensures { result.now ≡ stretch words.now place }
{
    let first = words[place] as usize;
    let past = words[place + 1] as usize;
    &words[first..past]
}

// Lent words that passed the check of a layout (crate layout_check, `layout_of`). Level 0 is the
// top, and level `number + 1` is the entry level of group `number`. A method asks that the group or the
// level is one of the layout's: that ties its argument to the value, and stands in no type.
#[derive(Clone, Copy)]
pub struct Layout<'a> {
    pub words: &'a [u32],
    pub ghost passed: { is_layout gate_limits words.now ≡ true },
    pub ghost few_groups: { group_count words.now < 4294967296 },
}

impl<'a> Layout<'a> {
    // How many groups the layout has over all levels.
    pub fn group_count(self) -> usize
        ensures { result ≡ group_count self.entry.words.now }
    {
        self.words[0] as usize
    }

    // The count tag of a group.
    pub fn count_tag_at(self, number: usize) -> u32
        requires { number < group_count self.words.now }
        ensures { result ≡ count_tag_at self.entry.words.now number }
    {
        let groups = self.group_count();
        self.words[7 + 3 * groups + number]
    }

    // The delimiter of a group. Each column of the groups' words has a function of its name: one that
    // is told the column's number would be no plainer.
    pub fn delimiter_at(self, number: usize) -> u32
        requires { number < group_count self.words.now }
        ensures { result ≡ delimiter_at self.entry.words.now number }
    {
        let groups = self.group_count();
        self.words[7 + 4 * groups + number]
    }

    // Whether a group is required.
    pub fn is_required_at(self, number: usize) -> bool
        requires { number < group_count self.words.now }
        ensures { result ≡ (flag_at self.entry.words.now number ≡ᵇ 1) }
    {
        let groups = self.group_count();
        self.words[7 + 5 * groups + number] == 1
    }

    // The members of a level, a part of the words, in strictly ascending order.
    pub fn members_at(self, level: usize) -> Ascending<'a>
        requires { level ≤ group_count self.words.now }
        ensures { result.words.now ≡ level_members self.entry.words.now level }
    {
        Ascending {
            words: stretch_at(self.words, 1 + level),
        }
    }

    // The required tags of a level, a part of the words.
    pub fn required_at(self, level: usize) -> &'a [u32]
        requires { level ≤ group_count self.words.now }
        ensures { result.now ≡ level_required self.entry.words.now level }
    {
        let groups = self.group_count();
        stretch_at(self.words, 3 + groups + level)
    }

    // The count tags of the groups that stand in a level, a part of the words, in strictly
    // ascending order.
    pub fn count_tags_at(self, level: usize) -> Ascending<'a>
        requires { level ≤ group_count self.words.now }
        ensures { result.words.now ≡ level_count_tags self.entry.words.now level }
    {
        let groups = self.group_count();
        Ascending {
            words: stretch_at(self.words, 5 + 2 * groups + level),
        }
    }

    // The number of the first group that stands in a level.
    pub fn first_group_of(self, level: usize) -> usize
        requires { level ≤ group_count self.words.now }
        ensures { result ≡ first_group self.entry.words.now level }
    {
        let groups = self.group_count();
        let place = self.words[5 + 2 * groups + level] as usize;
        place - (7 + 3 * groups)
    }
}
