// What a walk looks up in a layout: a group by its number, and the top group with a count tag.
// The entry level of a group has the number after the group's, and level 0 is the top.
ghost use Rattle.std.specs.Prelude.{◌≡◌, ◌+◌, ◌<◌, length};
ghost use Rattle.layouts.specs.LayoutWords.{group_count};
ghost use Rattle.walk_steps.specs.WalkWords.{GroupRead, number_found, group_of};

use ascending::search::Ascending;
use layouts::layout_words::Layout;

// A group: its count tag, its delimiter, the members of its entry level, the count tags of the groups
// nested in it, and the number of the first of these groups. The Rust's GroupSpec.
#[derive(Clone, Copy)]
pub struct GroupSpec<'a> {
    pub count_tag: u32,
    pub delimiter: u32,
    pub members: Ascending<'a>,
    pub tags: Ascending<'a>,
    pub first: usize,
    pub ghost few_groups: { first + length tags.words.now < 4294967296 },
}

// The group of this number.
pub fn group_spec<'a>(layout: Layout<'a>, group: usize) -> GroupSpec<'a>
    requires { group < group_count layout.words.now }
    ensures { GroupRead layout.entry.words.now group result.count_tag result.delimiter
        result.members.words.now result.tags.words.now result.first }
{
    GroupSpec {
        count_tag: layout.count_tag_at(group),
        delimiter: layout.delimiter_at(group),
        members: layout.members_at(1 + group),
        tags: layout.count_tags_at(1 + group),
        first: layout.first_group_of(1 + group),
    }
}

// The number of the top group with this count tag. The top's groups are the first ones, so that it
// is the tag's place among theirs.
pub fn top_group(layout: Layout<'_>, tag: u32) -> Option<usize>
    ensures { number_found 0 result ≡ group_of layout.entry.words.now 0 tag }
{
    layout.count_tags_at(0).binary_search(tag)
}
