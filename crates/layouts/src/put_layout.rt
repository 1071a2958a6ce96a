// Writing the words of a layout (docs/ARRANGEMENT.md) from its parts, gathered level by level (specs/GatheredLayout.antt).
ghost use Rattle.std.specs.Prelude.{◌≡◌, ◌∷◌, ℕ, ◌+◌, ◌*◌, ◌≤◌, ◌<◌, length, get_or};
ghost use Rattle.std.proofs.lemmas.List.Edits.{sets};
ghost use Rattle.layouts.specs.LayoutWords.{first_member};
ghost use Rattle.layouts.specs.GatheredLayout.{column, shifted, gathered_words, RowsInside};

use crate::layout_words::narrow;

// Writes a column of the rows from `to` on.
fn put_column(words: &mut [u32], to: usize, rows: &[u32], field: usize, count: usize)
    requires { (to + count ≤ length words.old) × (field + 6 * count ≤ length rows.now + 5) }
    ensures { words.new ≡ sets words.old to (column rows.now field count) }
{
    for index in 0..count {
        words[to + index] = rows[field + 6 * index];
    }
}

// Writes the place `first`, and after it the place of each end that stands in a column of the rows.
fn put_places(words: &mut [u32], to: usize, first: usize, rows: &[u32], field: usize, count: usize)
    requires { (to + 1 + count ≤ length words.old) × (field + 6 * count ≤ length rows.now + 5) × (first < 4294967296) × ((number : ℕ) → number < count → first + get_or rows.now (field + 6 * number) 0 < 4294967296) }
    ensures { words.new ≡ sets words.old to (first ∷ shifted first (column rows.now field count)) }
{
    words[to] = narrow(first);
    for index in 0..count {
        let end = rows[field + 6 * index] as usize;
        words[to + 1 + index] = narrow(first + end);
    }
}

// Writes the tags from `to` on.
fn put_tags(words: &mut [u32], to: usize, tags: &[u32])
    requires { to + length tags.now ≤ length words.old }
    ensures { words.new ≡ sets words.old to tags.now }
{
    // no `copy_from_slice`: for it the archive for C would need a memmove from outside
    for index in 0..tags.len() {
        words[to + index] = tags[index];
    }
}

// Writes the words of the layout whose parts were gathered. After them the words stay as they were.
pub fn put_layout(words: &mut [u32], groups: usize, members: &[u32], required: &[u32], rows: &[u32])
    requires { (first_member groups + length members.now + length required.now ≤ length words.old) × (first_member groups + length members.now + length required.now < 4294967296) × RowsInside groups members.now required.now rows.now }
    ensures { words.new ≡ sets words.old 0 (gathered_words groups members.now required.now rows.now) }
{
    let levels = groups + 1;
    let first_member = 7 + 6 * groups;
    let first_required = first_member + members.len();
    words[0] = narrow(groups);
    put_places(words, 1, first_member, rows, 3, levels);
    put_places(words, 3 + groups, first_required, rows, 4, levels);
    put_places(words, 5 + 2 * groups, 7 + 3 * groups, rows, 5, levels);
    put_column(words, 7 + 3 * groups, rows, 6, groups);
    put_column(words, 7 + 4 * groups, rows, 7, groups);
    put_column(words, 7 + 5 * groups, rows, 8, groups);
    put_tags(words, first_member, members);
    put_tags(words, first_required, required);
}
