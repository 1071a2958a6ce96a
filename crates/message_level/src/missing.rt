// What is required at the message level and was not seen there: tags, then groups. Ported from
// validator.rs, the end of `Validator::validate`.
ghost use Rattle.std.specs.Prelude.{not, ◌&&◌, List, ◌++◌, ℕ, ◌+◌, ◌*◌, ◌≤◌, ◌<◌, ◌^◌, length};
ghost use Rattle.ascii.specs.Notation.{◌≡ᵇ◌};
ghost use Rattle.layouts.specs.LayoutWords.{group_count, level_required, level_count_tags};
ghost use Rattle.ascii.specs.Membership.{◌∈ᵇ◌};
ghost use Rattle.events.specs.EventSpaceLaws.{Wrote};
ghost use Rattle.message_level.specs.MessageWalk.{missing_if, missing_tags, missing_groups};
ghost use Rattle.message_level.specs.MessageWords.{required_from};
ghost use Rattle.message_level.specs.SeenTags.{SeenTags};

use crate::seen_tags::SeenSet;
use events::event::Kind;
use layouts::layout_words::Layout;
use walk_steps::group_events::put_event;

// Missing, where the tag was not seen.
fn put_absent(seen: &SeenSet<'_>, tag: u32, events: &mut [u64], at: usize) -> usize
    requires at_bound { at + 5 < 2 ^ 63 }
    ensures wrote { (tags : List ℕ) → SeenTags seen.now.defined.tags.words.now seen.now.words.now tags
        → Wrote events.old events.new at result (missing_if (not (tag ∈ᵇ tags)) tag) }
    ensures near { result ≤ at + 5 }
{
    if seen.contains(tag) {
        return at;
    }
    put_event(events, at, 0, 0, Kind::Missing(tag))
}

// The same for a required tag. CheckSum(10) is consumed by the decoder and never appears among the
// parsed fields, so it is skipped here.
fn put_absent_tag(seen: &SeenSet<'_>, tag: u32, events: &mut [u64], at: usize) -> usize
    requires at_bound { at + 5 < 2 ^ 63 }
    ensures wrote { (tags : List ℕ) → SeenTags seen.now.defined.tags.words.now seen.now.words.now tags
        → Wrote events.old events.new at result
        (missing_if (not (tag ≡ᵇ 10) && not (tag ∈ᵇ tags)) tag) }
    ensures near { result ≤ at + 5 }
{
    if tag == 10 {
        return at;
    }
    put_absent(seen, tag, events, at)
}

// The same for the top group of this number, if it is required.
fn put_absent_group(
    seen: &SeenSet<'_>,
    layout: Layout<'_>,
    number: usize,
    events: &mut [u64],
    at: usize,
) -> usize
    requires number_bound { number < group_count layout.words.now }
    requires at_bound { at + 5 < 2 ^ 63 }
    ensures wrote { (tags : List ℕ) → SeenTags seen.now.defined.tags.words.now seen.now.words.now tags
        → Wrote events.old events.new at result
        (missing_groups tags (required_from layout.entry.words.now number 1)) }
    ensures near { result ≤ at + 5 }
{
    if !layout.is_required_at(number) {
        return at;
    }
    let tag = layout.count_tag_at(number);
    put_absent(seen, tag, events, at)
}

// The required tags, in their order with their repeats.
fn put_missing_tags(seen: &SeenSet<'_>, required: &[u32], events: &mut [u64], at: usize) -> usize
    requires required_bound { at + 5 * length required.now < 2 ^ 62 }
    ensures wrote { (tags : List ℕ) → SeenTags seen.now.defined.tags.words.now seen.now.words.now tags
        → Wrote events.old events.new at result (missing_tags tags required.now) }
    ensures near { result ≤ at + 5 * length required.now }
{
    let mut to = at;
    for tag in required {
        to = put_absent_tag(seen, *tag, events, to);
    }
    to
}

// The required groups by ascending count tag: the first so many groups.
fn put_missing_groups(
    seen: &SeenSet<'_>,
    layout: Layout<'_>,
    groups: usize,
    events: &mut [u64],
    at: usize,
) -> usize
    requires groups_inside { groups ≤ group_count layout.words.now }
    requires groups_bound { at + 5 * groups < 2 ^ 62 }
    ensures { (tags : List ℕ) → SeenTags seen.now.defined.tags.words.now seen.now.words.now tags
        → Wrote events.old events.new at result
        (missing_groups tags (required_from layout.entry.words.now 0 groups)) }
{
    let mut to = at;
    for number in 0..groups {
        to = put_absent_group(seen, layout, number, events, to);
    }
    to
}

// All that is missing.
pub fn put_missing(seen: &SeenSet<'_>, layout: Layout<'_>, events: &mut [u64], at: usize) -> usize
    requires at_bound { at ≤ 102400 }
    ensures { (tags : List ℕ) → SeenTags seen.now.defined.tags.words.now seen.now.words.now tags
        → Wrote events.old events.new at result
        (missing_tags tags (level_required layout.entry.words.now 0)
        ++ missing_groups tags
        (required_from layout.entry.words.now 0 (length (level_count_tags layout.entry.words.now 0)))) }
{
    let required = layout.required_at(0);
    let to = put_missing_tags(seen, required, events, at);
    let groups = layout.count_tags_at(0).words.len();
    put_missing_groups(seen, layout, groups, events, to)
}
