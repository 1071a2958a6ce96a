// The check of lent layout words: whether they begin with the arrangement of a layout that meets the
// seven rules and the limits. What its parts ask of the number of groups stands in their clauses:
// words that are no layout yet have no type.
ghost use Rattle.std.specs.Prelude.{◌≡◌, ◌<◌, ◌≤◌, ◌&&◌, true, length};
ghost use Rattle.std.specs.Option.{option_map};
ghost use Rattle.ascii.specs.Notation.{◌≤ᵇ◌};
ghost use Rattle.ascii.specs.Bytes.{every};
ghost use Rattle.layouts.specs.Limits.{gate_limits};
ghost use Rattle.layouts.specs.LayoutRules.{◌∈ᵇ◌};
ghost use Rattle.layouts.specs.LayoutWords.{first_member};
ghost use Rattle.layouts.specs.LayoutCheck.{is_run, is_ahead, is_flag, is_level, member_places_hold, required_places_hold, group_places_hold, all_levels_hold, all_delimiters_hold, is_layout, layout_words};
ghost use Rattle.layouts.specs.LayoutCheckLaws.{PlacesInside};

use layouts::layout_words::{Layout, stretch_at};

// Whether the places begin at `first` and never fall.
fn is_run(places: &[u32], first: usize) -> bool
    ensures { result ≡ is_run first places.now }
{
    let [place, ..] = places else {
        return false;
    };
    *place as usize == first && places.is_sorted()
}

// Whether the first place is greater than `number`, the second greater than `number + 1`, and so
// on.
fn is_ahead(places: &[u32], number: usize) -> bool
    ensures { result ≡ is_ahead number places.now }
{
    let mut passed = number;
    for place in places {
        if *place as usize <= passed {
            return false;
        }
        passed += 1;
    }
    true
}

// Whether each word is 0 or 1.
fn are_flags(flags: &[u32]) -> bool
    ensures { result ≡ every is_flag flags.now }
{
    flags.iter().all(|flag| *flag <= 1)
}

// Whether the members of a level ascend strictly, and so do the count tags of its groups, each of
// them a member. Since both ascend, the count tags are met in their order among the members.
fn is_level(members: &[u32], tags: &[u32]) -> bool
    ensures { result ≡ is_level members.now tags.now }
{
    let mut least: usize = 0;
    // A slice of the tags not yet met, in place of `met`, was tried: the check took a tenth longer.
    let mut met = 0;
    for word in members {
        let member = *word as usize;
        if member < least {
            return false;
        }
        least = member + 1;
        if met < tags.len() && tags[met] == *word {
            met += 1;
        }
    }
    met == tags.len()
}

// Whether the tag is one of the members.
fn is_member(members: &[u32], tag: u32) -> bool
    ensures { result ≡ (tag ∈ᵇ members.now) }
{
    members.contains(&tag)
}

// Whether the places of the members are those of an arrangement, with no more than 8,192 members.
#[tactic(auto, unfolding(layouts::specs::LayoutCheck::member_places_hold))]
fn member_places_hold(words: &[u32], groups: usize) -> bool
    requires { (first_member groups ≤ length words.now) × (groups < 4294967296) }
    ensures { result ≡ member_places_hold gate_limits groups words.now }
{
    let first = 7 + 6 * groups;
    let end = words[groups + 2] as usize;
    is_run(&words[1..][..groups + 2], first) && end <= first + 8192
}

// Whether the places of the required tags are those of an arrangement, with no more than 2,048 of
// them, and all words are there.
#[tactic(auto, unfolding(layouts::specs::LayoutCheck::required_places_hold))]
fn required_places_hold(words: &[u32], groups: usize) -> bool
    requires { (first_member groups ≤ length words.now) × (groups < 4294967296) }
    ensures { result ≡ required_places_hold gate_limits groups words.now }
{
    let first = words[groups + 2] as usize;
    let end = words[4 + 2 * groups] as usize;
    is_run(&words[3 + groups..][..groups + 2], first) && end <= first + 2048 && end <= words.len()
}

// Whether the places of the count tags are those of an arrangement: each group in one level, each
// entry level after its group's.
#[tactic(auto, unfolding(layouts::specs::LayoutCheck::group_places_hold))]
fn group_places_hold(words: &[u32], groups: usize) -> bool
    requires { (first_member groups ≤ length words.now) × (groups < 4294967296) }
    ensures { result ≡ group_places_hold groups words.now }
{
    let first = 7 + 3 * groups;
    let end = words[6 + 3 * groups] as usize;
    is_run(&words[5 + 2 * groups..][..groups + 2], first)
        && end == 7 + 4 * groups
        && is_ahead(&words[6 + 2 * groups..][..groups], first)
}

// Whether every level meets the rules for its members and count tags.
fn levels_hold(words: &[u32], groups: usize) -> bool
    requires { PlacesInside groups words.now }
    ensures { result ≡ all_levels_hold groups words.now }
{
    for level in 0..groups + 1 {
        let members = stretch_at(words, 1 + level);
        let tags = stretch_at(words, 5 + 2 * groups + level);
        if !is_level(members, tags) {
            return false;
        }
    }
    true
}

// Whether the delimiter of every group is a member of its entry level.
fn delimiters_hold(words: &[u32], groups: usize) -> bool
    requires { PlacesInside groups words.now }
    ensures { result ≡ all_delimiters_hold groups words.now }
{
    for number in 0..groups {
        let members = stretch_at(words, 2 + number);
        let place = 7 + 4 * groups + number;
        if !is_member(members, words[place]) {
            return false;
        }
    }
    true
}

// Whether all words before the members are there, and the three rows of places are as the
// arrangement has them: then the stretches of every level lie in the words.
#[tactic(auto, using(layouts::specs::LayoutCheckLaws::places_inside))]
fn places_hold(words: &[u32], groups: usize) -> bool
    requires { groups < 4294967296 }
    ensures outcome { result ≡ (first_member groups ≤ᵇ length words.now
        && member_places_hold gate_limits groups words.now
        && required_places_hold gate_limits groups words.now
        && group_places_hold groups words.now) }
    ensures inside { result ≡ true → PlacesInside groups words.now }
{
    7 + 6 * groups <= words.len()
        && member_places_hold(words, groups)
        && required_places_hold(words, groups)
        && group_places_hold(words, groups)
}

// Returns true exactly where the words begin with the arrangement of a layout that meets the seven
// rules and the limits.
#[tactic(auto, unfolding(layouts::specs::LayoutCheck::is_layout, layouts::specs::LayoutCheck::is_layout_of), using(ascii::specs::BytesLaws::part_to_end, ascii::specs::BytesLaws::non_empty_is))]
pub fn is_layout(words: &[u32]) -> bool
    ensures outcome { result ≡ is_layout gate_limits words.now }
{
    let [first_word, ..] = words else {
        return false;
    };
    let groups = *first_word as usize;
    places_hold(words, groups)
        && are_flags(&words[7 + 5 * groups..][..groups])
        && levels_hold(words, groups)
        && delimiters_hold(words, groups)
}

// The words as a layout, where they are one.
pub fn layout_of(words: &[u32]) -> Option<Layout<'_>>
    ensures outcome { option_map (λ layout. layout.words.now) result ≡ layout_words gate_limits words.now }
{
    if !is_layout(words) {
        return None;
    }
    Some(Layout { words })
}
