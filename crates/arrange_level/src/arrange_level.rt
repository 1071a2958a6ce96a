// Reading a level from the trace of an expansion (specs/ArrangeTrace.antt): its own members, required tags and groups.
ghost use Rattle.std.specs.Prelude.{◌≡◌, ◌≤◌, length};
ghost use Rattle.ascending.specs.Sort.{sorted};
ghost use Rattle.ascending.specs.Dedup.{deduped, deduped_in};
ghost use Rattle.expansion.specs.Trace.{tag_in, count_tag_in};
ghost use Rattle.arrange_level.specs.ArrangeTrace.{own_at, kept_required, kept_in};
ghost use Rattle.arrange_level.specs.ArrangeLevelLaws.{Passes, ReadRoom, OwnRead};

use ascending::dedup::dedup;
use expansion::required::retain;
use expansion::step::Step;
use sorting::sort::sort_unstable;

// Where the members and the required tags of a level end, how many groups stand in it, and the delimiter of its group, 0 for the top.
#[derive(Clone, Copy)]
pub struct OwnLevel {
    pub members: usize,
    pub required: usize,
    pub groups: usize,
    pub delimiter: u32,
}

// The tag in a word of the trace, where it enters no group. The levels are read by
// `From<u64> for Step`; this and the next tell the parts of a word alone.
pub fn tag_in(word: u64) -> u32
    ensures { result ≡ tag_in word }
{
    (word / 4 % 0x1_0000_0000) as u32
}

// The count tag in a word that enters a group.
pub fn count_tag_in(word: u64) -> u32
    ensures { result ≡ count_tag_in word }
{
    (word / 8 % 0x1_0000_0000) as u32
}

// The place after the word that leaves the group that is open at `place`.
pub fn behind_group(trace: &[u64], place: usize) -> usize
    requires { place ≤ length trace.now }
    ensures { Passes trace.now place result }
{
    let mut groups: usize = 1;
    for index in place..trace.len() {
        match Step::from(trace[index]) {
            Step::Enter(_, _) => groups += 1,
            Step::Leave(_) => {
                if groups == 1 {
                    return index + 1;
                }
                groups -= 1;
            }
            _ => {}
        }
    }
    trace.len()
}

// Reads what the level that begins at `first` has of its own: its members from `member` on, its required tags from `need` on, and the
// count tags of its groups, all in the order in which they were added.
pub fn read_level(
    trace: &[u64],
    first: usize,
    members: &mut [u32],
    member: usize,
    required: &mut [u32],
    need: usize,
    tags: &mut [u32],
) -> OwnLevel
    requires { ReadRoom trace.now first members.old member required.old need tags.old }
    ensures { OwnRead (own_at trace.now first) members.old member required.old need tags.old result members.new required.new tags.new }
{
    let mut place = first;
    let mut past = member;
    let mut later = need;
    let mut group = 0;
    // no `for`: the place jumps over the groups inside
    while place < trace.len() {
        let step = Step::from(trace[place]);
        place += 1;
        match step {
            Step::Member(tag) => {
                members[past] = tag;
                past += 1;
            }
            Step::Required(tag) => {
                required[later] = tag;
                later += 1;
            }
            Step::Enter(tag, _) => {
                members[past] = tag;
                past += 1;
                tags[group] = tag;
                group += 1;
                place = behind_group(trace, place);
            }
            Step::Leave(delimiter) => {
                return OwnLevel {
                    members: past,
                    required: later,
                    groups: group,
                    delimiter,
                };
            }
        }
    }
    OwnLevel {
        members: past,
        required: later,
        groups: group,
        delimiter: 0,
    }
}

// Sorts the words and drops those that repeat the one before; returns how many they are. After them stands what is left over.
pub fn in_order(words: &mut [u32]) -> usize
    ensures outcome { result ≡ length (deduped (sorted words.old)) }
    ensures memory { words.new ≡ deduped_in (sorted words.old) }
{
    sort_unstable(words);
    dedup(words)
}

// The required list of the level that begins at `first`: an entry drops its delimiter and later repeats, the top keeps all. Returns how
// many they are. After them the words stay.
pub fn keep_required(required: &mut [u32], first: usize, delimiter: u32) -> usize
    ensures outcome { result ≡ length (kept_required first delimiter required.old) }
    ensures memory { required.new ≡ kept_in first delimiter required.old }
{
    if first == 0 {
        required.len()
    } else {
        retain(required, delimiter)
    }
}
